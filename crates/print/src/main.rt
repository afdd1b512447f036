// Reads a drawing list from standard input and prints its page as a plain PGM, or the refusal.
#![tactic(auto)]

ghost use Rattle.std.specs.Prelude.{◌≡◌, ◌+◌, ◌*◌, ◌≤◌, length, take, replicate, OnOk, IfOk, IfSome};
ghost use Rattle.std.specs.Io.KnownBytes.{Appends};
ghost use Rattle.drawing.specs.Outcome.{numbered_outcome};
ghost use Rattle.print.specs.Printed.{list_text, outcome_text};

use drawing::{Outcome, draw_list};
use std::io;
use std::io::{Read, Write};

// Puts what is printed for what came of a list; hands back its length.
fn put_outcome(out: &mut [u8], page: &[u8], outcome: Outcome) -> usize
    requires { (4 * length page.now + 240 ≤ length out.old) × (length page.now ≤ 65536) }
    ensures { (take result out.new ≡ outcome_text (numbered_outcome outcome) page.now) × (result ≤ 4 * length page.now + 240) }
{
    match outcome.answer {
        Ok(size) => text::put_page(out, page, size.w, size.h, outcome.touched),
        Err(refused) => text::put_refusal(out, refused.refusal.into(), refused.place),
    }
}

// Draws a list on a page and puts what is printed for it; hands back its length.
fn put_list(out: &mut [u8; 262384], page: &mut [u8; 65536], list: &[u8]) -> usize
    ensures { (take result out.new ≡ list_text list.now page.old) × (result ≤ 262384) }
{
    let lights = lights::code_lights();
    let outcome = draw_list(page, &lights, list);
    put_outcome(out, page, outcome)
}

// Writes the first n bytes.
fn write_first<W: Write>(to: &mut W, out: &[u8; 262384], n: usize) -> io::Result<()>
    requires { n ≤ 262384 }
    ensures { OnOk result (Appends (W.contents to.old) (W.contents to.new) (take n out.now)) }
{
    let all = &out[..];
    to.write_all(&all[..n])
}

// Reads a list, of a longer one a byte more than a list may have, so that it is told; hands back how many bytes were read.
fn read_list<R: Read>(from: &mut R, list: &mut [u8; 65537]) -> io::Result<usize>
    ensures { IfOk result (λ n. (n ≤ 65537) × IfSome (R.remaining from.old) (λ bytes. take n list.new ≡ take 65537 bytes)) }
{
    let mut at: usize = 0;
    // no index is counted: a read gives as many bytes as it has
    while at < 65537 {
        let n = from.read(&mut list[at..])?;
        if n == 0 {
            return Ok(at);
        }
        at += n;
    }
    Ok(at)
}

// Draws a list on a page of zeros and writes what is printed for it.
fn write_list<W: Write>(to: &mut W, list: &[u8]) -> io::Result<()>
    ensures { OnOk result (Appends (W.contents to.old) (W.contents to.new) (list_text list.now (replicate 65536 0))) }
{
    let mut page = [0u8; 65536];
    // four bytes for each level, and 240 for what stands before them
    let mut out = [0u8; 262384];
    let end = put_list(&mut out, &mut page, list);
    write_first(to, &out, end)
}

// Writes what is printed for the list that a reader has.
fn print_list<R: Read, W: Write>(from: &mut R, to: &mut W) -> io::Result<()>
    ensures { OnOk result (IfSome (R.remaining from.old) (λ bytes. Appends (W.contents to.old) (W.contents to.new) (list_text bytes (replicate 65536 0)))) }
{
    let mut list = [0u8; 65537];
    let n = read_list(from, &mut list)?;
    let all = &list[..];
    write_list(to, &all[..n])
}

fn main(rt: HostRuntime) -> io::Result<()> {
    print_list(&mut rt.reader(), &mut io::writer(&rt))
}
