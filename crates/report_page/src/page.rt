// How a page ends: with the totals, which its style shows first.
use figures::Classes;
use sink::{Buffer, Sink};
use totals::{Figures, Totals, Verdicts};

// A number and what it counts.
fn total(s: Sink, out: &mut Buffer, n: u64, word: &[u8]) -> Sink {
    let s1 = texts::decimal(s, out, b"<span><b>", n as usize);
    let s2 = sink::put(s1, out, b"</b> ");
    let s3 = sink::put(s2, out, word);
    sink::put(s3, out, b"</span>\n")
}

// Modules, and how they ended.
fn verdicts(s: Sink, out: &mut Buffer, v: Verdicts) -> Sink {
    let s1 = total(s, out, v.modules, b"modules read");
    let s2 = total(s1, out, v.refused, b"refused");
    let s3 = total(s2, out, v.finished, b"finished");
    let s4 = total(s3, out, v.stopped, b"stopped");
    let s5 = total(s4, out, v.unequal, b"not equal");
    sink::put(s5, out, b"</p>\n<p>")
}

// The sums of their figures.
fn figures(s: Sink, out: &mut Buffer, f: Figures) -> Sink {
    let s1 = total(s, out, f.kept, b"kept areas");
    let s2 = total(s1, out, f.positions, b"positions");
    let s3 = total(s2, out, f.unwritten, b"unwritten");
    let s4 = total(s3, out, f.known, b"bits known");
    let s5 = sink::put(s4, out, b"</p>\n<p>");
    total(s5, out, f.fixups, b"fixups:")
}

// Fixups by class.
fn classes(s: Sink, out: &mut Buffer, c: Classes) -> Sink {
    let s1 = total(s, out, c.addr19, b"addr19");
    let s2 = total(s1, out, c.addr11, b"addr11");
    let s3 = total(s2, out, c.addr24, b"addr24");
    let s4 = total(s3, out, c.addr16, b"addr16");
    total(s4, out, c.byte, b"byte")
}

// Whether no module needs a person.
fn is_clean(v: Verdicts) -> bool {
    v.refused == 0 && v.stopped == 0 && v.unequal == 0
}

// That no module does, or nothing.
fn unless_troubled(s: Sink, out: &mut Buffer, v: Verdicts) -> Sink {
    if is_clean(v) {
        return sink::put(
            s,
            out,
            b"<p class='t'>No module is refused, stopped or not equal.</p>\n",
        );
    }
    s
}

// What stands behind the modules.
pub fn ending(s: Sink, out: &mut Buffer, t: Totals) -> Sink {
    let v = t.verdicts;
    let f = t.figures;
    let c = t.classes;
    let s1 = unless_troubled(s, out, v);
    let s2 = sink::put(s1, out, b"<header><h1>Library report</h1>\n<p>");
    let s3 = verdicts(s2, out, v);
    let s4 = figures(s3, out, f);
    let s5 = classes(s4, out, c);
    sink::put(s5, out, b"</p></header>\n</body>\n</html>\n")
}
