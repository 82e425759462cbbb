// What is told on standard error: a line for each name that cannot be read and each module that is not whole.
ghost use Rattle.sink.specs.Sinks.{Written};

use host::{Failure, STDERR_FILENO};
use sink::{Buffer, Sink};
use std::env::Env;

// Writes the line that waits in a buffer of its own.
fn write_line(s: Sink, line: &Buffer) {
    io::write_all(STDERR_FILENO, sink::first_bytes(line, s.used));
}

// Writes the name that waits in a buffer of its own, and why a call failed.
fn write_reason(s: Sink, line: &Buffer, why: Failure) {
    host::tell_failure(sink::first_bytes(line, s.used), why)
}

// A name, and why a call failed.
pub fn tell_reason(name: &[u8], why: Failure) {
    let mut line = io::large_buffer();
    let s = texts::name(sink::new(), &mut line, name);
    write_reason(s, &line, why)
}

// A name, and where the reading of its module stopped.
pub fn tell_place(name: &[u8], place: usize) {
    let mut line = io::large_buffer();
    let s1 = texts::name(sink::new(), &mut line, name);
    let s2 = texts::decimal(s1, &mut line, b": stopped at ", place);
    let s3 = sink::put(s2, &mut line, b"\n");
    write_line(s3, &line)
}

// A name, and the number and the place of its module's refusal.
pub fn tell_number(name: &[u8], number: usize, place: usize) {
    let mut line = io::large_buffer();
    let s1 = texts::name(sink::new(), &mut line, name);
    let s2 = texts::decimal(s1, &mut line, b": refused ", number);
    let s3 = texts::decimal(s2, &mut line, b" at ", place);
    let s4 = sink::put(s3, &mut line, b"\n");
    write_line(s4, &line)
}

// A name, and some words.
pub fn tell_words(name: &[u8], words: &[u8]) {
    let mut line = io::large_buffer();
    let s1 = texts::name(sink::new(), &mut line, name);
    let s2 = sink::put(s1, &mut line, b": ");
    let s3 = sink::put(s2, &mut line, words);
    let s4 = sink::put(s3, &mut line, b"\n");
    write_line(s4, &line)
}

// Writes what was listed before, and tells something behind it, unless that was lost.
fn behind<F: FnOnce()>(s: Sink, out: &Buffer, told: F) -> Sink
    requires { F.IsAlwaysCallable told }
    ensures { Written s result }
{
    let t = sink::flush(s, out);
    if !t.broken {
        told();
    }
    t
}

// Tells words of a module, behind what was listed before.
pub fn tell(s: Sink, out: &Buffer, name: &[u8], words: &[u8]) -> Sink
    ensures { Written s result }
{
    behind(s, out, || tell_words(name, words))
}

// Tells why a call failed, behind what was listed before.
pub fn complain(s: Sink, out: &Buffer, name: &[u8], why: Failure) -> Sink
    ensures { Written s result }
{
    behind(s, out, || tell_reason(name, why))
}

// Tells where a module's reading stopped, behind what was listed before.
pub fn tell_stopped(s: Sink, out: &Buffer, name: &[u8], place: usize) -> Sink
    ensures { Written s result }
{
    behind(s, out, || tell_place(name, place))
}

// Tells of a module's refusal, behind what was listed before.
pub fn tell_refused(s: Sink, out: &Buffer, name: &[u8], number: usize, place: usize) -> Sink
    ensures { Written s result }
{
    behind(s, out, || tell_number(name, number, place))
}

// The option that waits at the start of a buffer, or how it begins.
fn write_option(word: &[u8], n: usize) {
    let mut line = io::large_buffer();
    let s = texts::name(sink::new(), &mut line, sink::first_bytes(word, n));
    write_line(s, &line)
}

// Tells of an option that is not known, by the argument's number. Of one that is longer than 64 bytes it tells how it
// begins.
pub fn tell_option(rt: &impl Env, i: usize) {
    let mut word = [0u8; 66];
    let n = host::argument_or_none(rt, i, &mut word);
    option_of(&mut word, n);
    io::write_all(STDERR_FILENO, b": unknown option\n");
}

// Writes an option of n bytes, or how it begins where n is 0.
fn option_of(word: &mut [u8; 66], n: usize) {
    if n == 0 {
        word[64..].copy_from_slice(b"..");
        write_option(word, 66)
    } else {
        write_option(word, n)
    }
}
