// A module's name: that of its file, or of its archive's member, without folder and .rel.

// The bytes behind the last of this kind, or all where there is none.
fn behind_last(bytes: &[u8], byte: u8) -> &[u8] {
    match bytes.iter().rposition(|b| *b == byte) {
        Some(i) => &bytes[i + 1..],
        None => bytes,
    }
}

// The name of a module that is shown under a name: LIB(MEMBER) names the member.
pub(crate) fn module(shown: &[u8]) -> &[u8] {
    let name = match shown.strip_suffix(b")") {
        Some(member) => behind_last(member, b'('),
        None => behind_last(shown, b'/'),
    };
    name.strip_suffix(b".rel").unwrap_or(name)
}
