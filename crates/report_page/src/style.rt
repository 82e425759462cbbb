// How a page begins: its style, the patterns of the bars, and the headings of both lists.
use sink::{Buffer, Sink};

// What the page is, and the order in which its parts are shown.
fn head(s: Sink, out: &mut Buffer) -> Sink {
    sink::put(
        s,
        out,
        b"<!DOCTYPE html>\n\
          <html lang='en'>\n\
          <head>\n\
          <meta charset='utf-8'>\n\
          <meta http-equiv='Content-Security-Policy' content=\"default-src 'none'; style-src 'unsafe-inline'\">\n\
          <title>Library report</title>\n\
          <style>\n\
          body { display: flex; flex-direction: column; margin: 1.5em; font: 13px/1.4 sans-serif; color: #000; background: #fff }\n\
          header { order: 1 } .a { order: 2 } .t { order: 3 } .l { order: 4 } .c { order: 5 } .m { order: 6 }\n\
          h1, h2, p { margin: 0 0 .4em } h1 { font-size: 1.7em } h2 { font-size: 1.25em; margin-top: 1em } i { font-style: normal }\n\
          header span { display: inline-block; margin-right: 1.2em } header b { font-size: 1.3em }\n",
    )
}

// Rows: each is a grid of its own, so that nothing is held back.
fn rows(s: Sink, out: &mut Buffer) -> Sink {
    sink::put(
        s,
        out,
        b".t, .c, .m { display: grid; column-gap: .7em; align-items: center; padding: 1px 0 1px .6em; border-left: 5px solid #fff; break-inside: avoid }\n\
          .t { grid-template-columns: 3fr 6fr } p.t { display: block; padding: 0; border: 0 }\n\
          .c, .m { grid-template-columns: minmax(8em, 5fr) minmax(10em, 3fr) repeat(7, 5.5em) minmax(8em, 3fr); border-bottom: 1px solid #bbb }\n\
          .c { position: sticky; top: 0; background: #fff; border-bottom: 2px solid #000; font-weight: bold }\n\
          .t, .w { border-left: 5px double #000 } .m b { font-weight: normal } .m.w b { font-weight: bold }\n\
          .c i, .m i { text-align: right } .c i:nth-child(10), .m i:nth-child(10) { text-align: left } bdi { overflow-wrap: anywhere }\n\
          svg { height: 13px; outline: 1px solid #000; outline-offset: -1px } .b { width: 100% }\n\
          .l span { display: inline-block; margin-right: 1.2em } .l svg { width: 34px; vertical-align: -2px }\n",
    )
}

// On paper each number has its word, since the heading of the rows stands on one page only.
fn paper(s: Sink, out: &mut Buffer) -> Sink {
    sink::put(
        s,
        out,
        b"@page { size: landscape; margin: 12mm }\n\
          @media print {\n\
          body { margin: 0; font-size: 9px } .c { display: none } .c, .m { grid-template-columns: 5fr 3fr repeat(7, 7.4em) 3fr }\n\
          .m i:nth-child(3)::before { content: 'kept ' } .m i:nth-child(4)::before { content: 'positions ' }\n\
          .m i:nth-child(5)::before { content: 'known ' } .m i:nth-child(6)::before { content: 'partly ' }\n\
          .m i:nth-child(7)::before { content: 'relocated ' } .m i:nth-child(8)::before { content: 'unwritten ' }\n\
          .m i:nth-child(9)::before { content: 'fixups ' }\n\
          }\n\
          </style>\n\
          </head>\n\
          <body>\n",
    )
}

// Patterns, which are told apart without colours.
fn patterns(s: Sink, out: &mut Buffer) -> Sink {
    sink::put(
        s,
        out,
        b"<svg style='position: absolute; width: 0; height: 0; outline: 0'><defs>\n\
          <pattern id='k' width='4' height='4' patternUnits='userSpaceOnUse'><rect width='4' height='4' fill='#1f4e79'/></pattern>\n\
          <pattern id='p' width='6' height='6' patternUnits='userSpaceOnUse'><rect width='6' height='6' fill='#ffe2b8'/><path d='M-1 1l2-2M0 6l6-6M5 7l2-2' stroke='#a04000' stroke-width='1.5'/></pattern>\n\
          <pattern id='r' width='5' height='5' patternUnits='userSpaceOnUse'><rect width='5' height='5' fill='#e2f3e2'/><circle cx='2.5' cy='2.5' r='1.2' fill='#1b6b2f'/></pattern>\n\
          <pattern id='u' width='12' height='13' patternUnits='userSpaceOnUse'><rect width='12' height='13' fill='#fff'/><path d='M6 3v6' stroke='#b00020'/></pattern>\n\
          </defs></svg>\n",
    )
}

// The headings, with a word for each pattern and colour.
fn headings(s: Sink, out: &mut Buffer) -> Sink {
    sink::put(
        s,
        out,
        b"<div class='a'><h2>What needs a person</h2><p>What is refused, stopped or not equal stands here. The command list --why shows the line at which a module came to a halt.</p></div>\n\
          <div class='l'><h2>All modules</h2><p>Each bar shows the positions of a module's kept areas to scale:\n\
          <span><svg><rect width='34' height='13' fill='url(#k)'/></svg> known (full, blue)</span>\n\
          <span><svg><rect width='34' height='13' fill='url(#p)'/></svg> partly known (striped, orange)</span>\n\
          <span><svg><rect width='34' height='13' fill='url(#r)'/></svg> relocated (dotted, green)</span>\n\
          <span><svg><rect width='34' height='13' fill='url(#u)'/></svg> unwritten: no line writes it (white, a few red strokes)</span></p></div>\n\
          <div class='c'><span>module</span> <span>verdict</span> <i>kept</i> <i>positions</i> <i>known</i> <i>partly</i> <i>relocated</i> <i>unwritten</i> <i>fixups</i> <i>positions to scale</i></div>\n",
    )
}

// What stands before the modules.
pub fn starting(s: Sink, out: &mut Buffer) -> Sink {
    let s1 = head(s, out);
    let s2 = rows(s1, out);
    let s3 = paper(s2, out);
    let s4 = patterns(s3, out);
    headings(s4, out)
}
