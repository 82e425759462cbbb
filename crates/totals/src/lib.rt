// The totals of a library: how many modules were read and how they ended, and the sums of their figures, each of 64 bits.
#![tactic(auto)]

ghost use Rattle.std.specs.Prelude.{◌≡◌, nat_lt};
ghost use Rattle.format.specs.Lists.{pick};
ghost use Rattle.format.specs.Target.{wrap_add};
ghost use Rattle.totals.specs.Many.{most_modules};
ghost use Rattle.totals.specs.Totals.{of_module, of_none, of_refused, plus, plus_classes, plus_figures, plus_verdicts, verdicts_of};

use figures::Classes;

// Modules that were read and that were refused; of the first those that are finished, stopped, and whose counts are not equal.
#[derive(Clone, Copy)]
pub struct Verdicts {
    pub modules: u64,
    pub refused: u64,
    pub finished: u64,
    pub stopped: u64,
    pub unequal: u64,
}

// Kept areas, their positions, the positions that no line writes, known bits and fixups.
#[derive(Clone, Copy)]
pub struct Figures {
    pub kept: u64,
    pub positions: u64,
    pub unwritten: u64,
    pub known: u64,
    pub fixups: u64,
}

// All of them, of one module or of many.
#[derive(Clone, Copy)]
pub struct Totals {
    pub verdicts: Verdicts,
    pub figures: Figures,
    pub classes: Classes,
}

fn sum(a: u64, b: u64) -> u64
    ensures { result ≡ wrap_add a b }
{
    std::num::wrapping_add_u64(a, b)
}

fn add_verdicts(a: Verdicts, b: Verdicts) -> Verdicts
    ensures { result ≡ plus_verdicts a b }
{
    Verdicts {
        modules: sum(a.modules, b.modules),
        refused: sum(a.refused, b.refused),
        finished: sum(a.finished, b.finished),
        stopped: sum(a.stopped, b.stopped),
        unequal: sum(a.unequal, b.unequal),
    }
}

fn add_figures(a: Figures, b: Figures) -> Figures
    ensures { result ≡ plus_figures a b }
{
    Figures {
        kept: sum(a.kept, b.kept),
        positions: sum(a.positions, b.positions),
        unwritten: sum(a.unwritten, b.unwritten),
        known: sum(a.known, b.known),
        fixups: sum(a.fixups, b.fixups),
    }
}

fn add_classes(a: Classes, b: Classes) -> Classes
    ensures { result ≡ plus_classes a b }
{
    Classes {
        addr19: sum(a.addr19, b.addr19),
        addr11: sum(a.addr11, b.addr11),
        addr24: sum(a.addr24, b.addr24),
        addr16: sum(a.addr16, b.addr16),
        byte: sum(a.byte, b.byte),
    }
}

// Totals and those of one module more.
pub fn add(a: Totals, b: Totals) -> Totals
    ensures { result ≡ plus a b }
{
    let v = add_verdicts(a.verdicts, b.verdicts);
    let f = add_figures(a.figures, b.figures);
    let c = add_classes(a.classes, b.classes);
    Totals {
        verdicts: v,
        figures: f,
        classes: c,
    }
}

fn no_figures() -> Figures
    ensures { result ≡ of_none.figures }
{
    Figures {
        kept: 0,
        positions: 0,
        unwritten: 0,
        known: 0,
        fixups: 0,
    }
}

fn no_classes() -> Classes
    ensures { result ≡ of_none.classes }
{
    Classes {
        addr19: 0,
        addr11: 0,
        addr24: 0,
        addr16: 0,
        byte: 0,
    }
}

// Of no module.
pub fn none() -> Totals
    ensures { result ≡ of_none }
{
    let v = Verdicts {
        modules: 0,
        refused: 0,
        finished: 0,
        stopped: 0,
        unequal: 0,
    };
    let f = no_figures();
    let c = no_classes();
    Totals {
        verdicts: v,
        figures: f,
        classes: c,
    }
}

// Of a module that is refused: nothing but one more of those.
pub fn refused() -> Totals
    ensures { result ≡ of_refused }
{
    let v = Verdicts {
        modules: 0,
        refused: 1,
        finished: 0,
        stopped: 0,
        unequal: 0,
    };
    let f = no_figures();
    let c = no_classes();
    Totals {
        verdicts: v,
        figures: f,
        classes: c,
    }
}

// 1 if so.
fn one_if(b: bool) -> u64
    ensures { result ≡ pick b 1 0 }
{
    if b { 1 } else { 0 }
}

// Of a module that is finished or stopped.
fn verdicts_of(finished: bool, unequal: bool) -> Verdicts
    ensures { result ≡ verdicts_of finished unequal }
{
    Verdicts {
        modules: 1,
        refused: 0,
        finished: one_if(finished),
        stopped: one_if(!finished),
        unequal: one_if(unequal),
    }
}

// Of a module that is read.
pub fn module(figures: Figures, classes: Classes, finished: bool, unequal: bool) -> Totals
    ensures { result ≡ of_module figures classes finished unequal }
{
    let v = verdicts_of(finished, unequal);
    Totals {
        verdicts: v,
        figures: figures,
        classes: classes,
    }
}

// Whether one name more is taken behind so many; 17 if not.
pub fn takes_more(names: u64) -> bool
    ensures { result ≡ nat_lt names most_modules }
{
    names < 10000
}
