//! A table for each command, in which each call of the files, the input, the output and standard error fails once: the
//! status, the line, what the output has then, and what stands under the names that the command writes.

use crate::expected::expect;
use crate::runs::{
    expect_answer, expect_told, input_of, no_files, put, run_line, run_with, sink_of,
};
use crate::tables::{cells, rows_of, unfolded};
use pcc_outside::MemFiles;
use std::alloc::Global;
use std::process::Abort;

/// The files: two sources of a program that puts what follows each byte of its input, a source without tokens, a board,
/// a file that is none, and what stands under the names of the products before the command.
const FILES: &str = "\
7 rows
a.c => int f(int c); int main(void){int c; while((c=getchar())!=-1) putchar(f(c)); return 3;}
b.c => int f(int c){return c+1;}
x.c => int main(void){return @;}
b => areas$pieces X1$
x => areas b$
p => old
p.map => old";

/// The input of each command.
const INPUT: &str = "HAL";

/// A row has the object whose call fails, the number of that call, which products are new behind the command, and the
/// words; and what is told.
const COMPILE: &str = "\
13 rows
files 1 none compile -o p a.c b.c => 4 read fault a.c$
files 2 none compile -o p a.c b.c => 4 read fault b.c$
files 3 none compile -o p a.c b.c => 5 write fault p.map$
files 4 map compile -o p a.c b.c => 5 write fault p$
files 5 both compile -o p a.c b.c => 0
input 1 both compile -o p a.c b.c => 0
out 1 both compile -o p a.c b.c => 0
err 1 both compile -o p a.c b.c => 0
err 2 none compile -o p x.c => 1 x.c:1:23: 1 BadByte$
err 1 none compile -o p x.c => 5
err 1 none compile -o p c.c => 5
err 1 none compile -o p => 5
err 1 none compile -o p 1 2 3 4 5 6 7 8 9 10 11 12 13 14 15 16 17 => 5";

const BOARD: &str = "\
6 rows
files 1 none board a.c b.c => 4 read fault a.c$
files 2 none board a.c b.c => 4 read fault b.c$
out 1 none board a.c b.c => 5 write fault output$
err 2 none board x.c => 1 x.c:1:23: 1 BadByte$
err 1 none board x.c => 5
err 1 none board => 5";

const SOLVE: &str = "\
8 rows
files 1 none solve b => 4 read fault b$
files 2 none solve b => 0 => none$
input 1 none solve b => 0 => none$
out 1 none solve b => 5 write fault output$
out 2 none solve b => 0 => none$
err 1 none solve b => 0 => none$
err 1 none solve x => 5
err 1 none solve => 5";

const LEAST: &str = "\
8 rows
files 1 none least b => 4 read fault b$
files 2 none least b => 0 => removed 0$
input 1 none least b => 0 => removed 0$
out 1 none least b => 5 write fault output$
out 2 none least b => 0 => removed 0$
err 1 none least b => 0 => removed 0$
err 1 none least x => 5
err 1 none least => 5";

const RUN: &str = "\
14 rows
files 1 none run i => 4 read fault i$
files 2 none run i => 0 exit 3$ => IBM
input 1 none run i => 4 read fault input$
input 2 none run i => 4 read fault input$ => I
input 3 none run i => 4 read fault input$ => IB
input 4 none run i => 4 read fault input$ => IBM
input 5 none run i => 0 exit 3$ => IBM
out 1 none run i => 5 write fault output$
out 2 none run i => 5 write fault output$ => I
out 3 none run i => 5 write fault output$ => IB
out 4 none run i => 0 exit 3$ => IBM
err 1 none run i => 5 => IBM
err 1 none run x => 5
err 1 none run => 5";

const EVAL: &str = "\
15 rows
files 1 none eval a.c b.c => 4 read fault a.c$
files 2 none eval a.c b.c => 4 read fault b.c$
files 3 none eval a.c b.c => 0 exit 3$ => IBM
input 1 none eval a.c b.c => 4 read fault input$
input 2 none eval a.c b.c => 4 read fault input$ => I
input 3 none eval a.c b.c => 4 read fault input$ => IB
input 4 none eval a.c b.c => 4 read fault input$ => IBM
input 5 none eval a.c b.c => 0 exit 3$ => IBM
out 1 none eval a.c b.c => 5 write fault output$
out 2 none eval a.c b.c => 5 write fault output$ => I
out 3 none eval a.c b.c => 5 write fault output$ => IB
out 4 none eval a.c b.c => 0 exit 3$ => IBM
err 1 none eval a.c b.c => 5 => IBM
err 1 none eval x.c => 5
err 1 none eval => 5";

const GEN: &str = "\
2 rows
out 1 none gen 1 => 5 write fault output$
err 1 none gen => 5";

const SELFTEST: &str = "\
5 rows
out 1 none selftest -o p 1 => 5 write fault output$
files 1 none selftest -o p 1 => 5 write fault p.map$ => eval 849c5e22 exit 0$
files 2 map selftest -o p 1 => 5 write fault p$ => eval 849c5e22 exit 0$
out 2 both selftest -o p 1 => 5 write fault output$ => eval 849c5e22 exit 0$
err 1 none selftest -o p => 5";

/// The tables of the commands.
const TABLES: [&str; 8] = [COMPILE, BOARD, SOLVE, LEAST, RUN, EVAL, GEN, SELFTEST];

/// Files in memory, whose call with this number fails. What `i` is to hold is given.
fn files_of(rt: &impl Abort, alloc: Global, image: &[u8], failing_call: u64) -> MemFiles {
    let mut files = no_files(rt, alloc, failing_call);
    for row in rows_of(rt, FILES) {
        let (name, text) = cells(rt, row);
        let text = unfolded(alloc, text).expect(rt, row);
        put(rt, &mut files, name, text.as_bytes());
    }
    put(rt, &mut files, "i", image);
    files
}

/// The image of the two sources.
fn image_of(rt: &impl Abort, alloc: Global) -> Vec<u8> {
    let mut files = files_of(rt, alloc, b"", 0);
    let answer = run_line(rt, alloc, "compile -o p a.c b.c", &mut files, 0);
    expect_answer(rt, &answer, "", 0, "", "the image");
    let image = files.content("p").unwrap_or(b"");
    image.to_vec(alloc).expect(rt, "the image")
}

/// How the map and the image begin, of which these are new.
fn fronts_of(written: &str) -> (&'static [u8], &'static [u8]) {
    match written {
        "both" => (b"pcc map 1\n", b"\x7fELF"),
        "map" => (b"pcc map 1\n", b"old"),
        _ => (b"old", b"old"),
    }
}

/// The number of the failing call, where it is one of this object, and else 0.
fn call_of(object: &str, failing: &str, number: u64) -> u64 {
    if object == failing { number } else { 0 }
}

/// The command of a row tells what the row says, and only the products that it names are new.
fn expect_fault(rt: &impl Abort, alloc: Global, image: &[u8], row: &str) {
    let (call, told) = cells(rt, row);
    let (failing, call) = call.split_once(" ").expect(rt, row);
    let (number, call) = call.split_once(" ").expect(rt, row);
    let (written, words) = call.split_once(" ").expect(rt, row);
    let number: u64 = number.parse().expect(rt, row);
    let mut files = files_of(rt, alloc, image, call_of("files", failing, number));
    let input = input_of(rt, alloc, INPUT, call_of("input", failing, number));
    let out = sink_of(rt, alloc, call_of("out", failing, number));
    let err = sink_of(rt, alloc, call_of("err", failing, number));
    let answer = run_with(rt, alloc, words, &mut files, input, out, err);
    expect_told(rt, alloc, &answer, told, row);
    let (map, image) = fronts_of(written);
    let map_stands = files.content("p.map").unwrap_or(b"").starts_with(map);
    let image_stands = files.content("p").unwrap_or(b"").starts_with(image);
    expect(rt, &(map_stands, image_stands), &(true, true), row);
}

/// The call that fails is told, what was done before it stands, and nothing is done behind it.
#[test]
fn tells_each_failing_call(rt: HostRuntime) {
    let alloc = rt.alloc();
    let image = image_of(&rt, alloc);
    for table in TABLES {
        for row in rows_of(&rt, table) {
            expect_fault(&rt, alloc, image.as_slice(), row);
        }
    }
}
