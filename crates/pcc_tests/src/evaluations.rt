//! Programs that are evaluated, and programs that are compiled and run: what they write, and how they end.

use crate::programs::{
    ARITHMETIC, ARRAYS, CALLS, OPERATORS, POINTERS, STATEMENTS, WORD_COUNTER, WORDS,
};
use crate::runs::{
    expect_answer, expect_command, expect_commands, expect_run, expect_runs, expect_told,
    files_with, input_of, put, run_over, source_and_input,
};
use crate::tables::{cells, rows_of, unfolded};
use std::alloc::Global;
use std::process::Abort;

/// A program with this input tells this where it is evaluated.
fn expect_evaluation(rt: &impl Abort, alloc: Global, source: &str, input: &str, told: &str) {
    let mut files = files_with(rt, alloc, source);
    let input = input_of(rt, alloc, input, 0);
    let answer = run_over(rt, alloc, "eval a.c", &mut files, input, 0);
    expect_told(rt, alloc, &answer, told, source);
}

/// The program of each row is evaluated.
fn expect_evaluations(rt: &impl Abort, alloc: Global, table: &str) {
    for row in rows_of(rt, table) {
        let (program, told) = cells(rt, row);
        let program = unfolded(alloc, program).expect(rt, row);
        let (source, input) = source_and_input(program.as_str());
        expect_evaluation(rt, alloc, source, input, told);
    }
}

/// The tables of programs.
const TABLES: [&str; 6] = [ARITHMETIC, OPERATORS, STATEMENTS, CALLS, POINTERS, ARRAYS];

#[test]
fn evaluates(rt: HostRuntime) {
    for table in TABLES {
        expect_evaluations(&rt, rt.alloc(), table);
    }
    let (input, told) = WORDS;
    expect_evaluation(&rt, rt.alloc(), WORD_COUNTER, input, told);
}

#[test]
fn compiles_and_runs(rt: HostRuntime) {
    for table in TABLES {
        expect_runs(&rt, rt.alloc(), table);
    }
    let (input, told) = WORDS;
    expect_run(&rt, rt.alloc(), WORD_COUNTER, input, told);
}

/// A frame of exactly the limit, and static objects of exactly theirs.
const LARGEST: &str = "\
2 rows
int main(void){char a[16220]; return 0;} => 0 exit 0$
char g[16777212]; int main(void){return 0;} => 0 exit 0$";

#[test]
fn runs_the_largest(rt: HostRuntime) {
    expect_runs(&rt, rt.alloc(), LARGEST);
}

/// An endless loop is evaluated for so many turns, and its image is run for so many steps.
const BUDGETS: &str = "\
4 rows
eval --turns 4 a.c => 10 budget 4$ => xxx
eval --turns 0 a.c => 10 budget 0$
compile -o a a.c => 0
run --steps 0 a => 10 budget 0$";

#[test]
fn stops_at_budgets(rt: HostRuntime) {
    let alloc = rt.alloc();
    let mut files = files_with(&rt, alloc, "int main(void){for(;;)putchar('x');}");
    expect_commands(&rt, alloc, &mut files, BUDGETS);
}

/// A function that another file defines.
const TWO_FILES: &str = "\
7 rows
eval a.c b.c => 0 exit 41$
eval b.c a.c => 0 exit 41$
eval a.c => 1 a.c:1:37: 19 NoBody$
eval b.c => 1 b.c:1:28: 18 NoMain$
compile -o p a.c => 1 a.c:1:37: 19 NoBody$
compile -o p a.c b.c => 0
run p => 0 exit 41$";

#[test]
fn links_files(rt: HostRuntime) {
    let alloc = rt.alloc();
    let first = "int f(int n); int main(void){return f(20);}";
    let mut files = files_with(&rt, alloc, first);
    put(&rt, &mut files, "b.c", b"int f(int n){return n*2+1;}");
    expect_commands(&rt, alloc, &mut files, TWO_FILES);
}

/// An input whose second call fails is told, by `eval` as by `run`.
#[test]
fn names_input_faults(rt: HostRuntime) {
    let alloc = rt.alloc();
    let mut files = files_with(&rt, alloc, WORD_COUNTER);
    expect_command(&rt, alloc, &mut files, "compile -o a a.c => 0");
    for words in ["eval a.c", "run a"] {
        let input = input_of(&rt, alloc, "one two\nthree\n", 2);
        let answer = run_over(&rt, alloc, words, &mut files, input, 0);
        expect_answer(&rt, &answer, "", 4, "read fault input\n", words);
    }
}
