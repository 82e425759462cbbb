// Whether a word asks for help.
ghost use Rattle.std.specs.Prelude.{◌≡◌, ◌||◌};
ghost use Rattle.difference.specs.Module.{same_numbers};
ghost use Rattle.help_word.specs.Help.{short, long};

use alike::same_name;

// Whether a word is -h or --help, and nothing else.
pub fn asks_help(word: &[u8]) -> bool
    ensures { result ≡ (same_numbers word.now short || same_numbers word.now long) }
{
    same_name(word, b"-h") || same_name(word, b"--help")
}
