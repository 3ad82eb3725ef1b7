//! The program that `load` runs, made from a seed and a size.

ghost use Rattle.std.specs.Prelude.{◌≡◌, ◌≤◌, ◌+◌, ◌++◌, ◌∷◌, [], IfOk, OnOk, length, map};
ghost use Rattle.std.specs.String.{string_bytes};
ghost use Rattle.rev_words.specs.Load as spec;

use std::alloc::{AllocError, Global};

/// A statement on one cell of an array, where `k` is the number of the task: cells are 0 to 15,
/// constants 0 to 99.
#[derive(Clone, Copy)]
enum Statement {
    /// `a[CELL] = a[CELL] + k % (CONSTANT + 1);`
    AddRemainder { cell: u32, constant: u32 },
    /// `b[CELL] = b[CELL] + CONSTANT;`
    AddConstant { cell: u32, constant: u32 },
    /// `v[CELL] = k * CONSTANT;`
    SetProduct { cell: u32, constant: u32 },
}

/// A linear congruential generator.
#[derive(Drop)]
struct Generator {
    state: u32,
}

impl Generator {
    /// The next number: 0 to 32,767.
    fn draw(&mut self) -> u32
        ensures state { self.new.state ≡ spec.next self.old.state }
        ensures number { result ≡ spec.draw self.old.state 1 }
    {
        self.state = ((self.state as u64 * 1_103_515_245 + 12_345) % 2_147_483_648) as u32;
        self.state / 65_536
    }

    /// The statement that the next three numbers give.
    fn statement(&mut self) -> Statement
        ensures state { self.new.state ≡ spec.state self.old.state 3 }
        ensures statement { result ≡ spec.statement_at self.old.state 0 }
    {
        let kind = self.draw() % 3;
        let cell = self.draw() % 16;
        let constant = self.draw() % 100;
        match kind {
            0 => Statement::AddRemainder { cell, constant },
            1 => Statement::AddConstant { cell, constant },
            _ => Statement::SetProduct { cell, constant },
        }
    }
}

/// Appends the line of a statement.
fn append_statement(text: &mut String, statement: Statement) -> Result<(), AllocError>
    ensures { OnOk result (string_bytes text.new
        ≡ string_bytes text.old ++ (spec.statement_text statement ++ 10 ∷ [])) }
{
    match statement {
        Statement::AddRemainder { cell, constant } => {
            writeln!(text, "a[{cell}] = a[{cell}] + k % ({constant} + 1);")
        }
        Statement::AddConstant { cell, constant } => {
            writeln!(text, "b[{cell}] = b[{cell}] + {constant};")
        }
        Statement::SetProduct { cell, constant } => {
            writeln!(text, "v[{cell}] = k * {constant};")
        }
    }
}

/// Appends the lines of the statements.
fn append_statements(text: &mut String, seed: u32) -> Result<(), AllocError>
    ensures { OnOk result (string_bytes text.new ≡ string_bytes text.old
        ++ spec.lines (map spec.statement_text (spec.statements_from seed 32))) }
{
    let mut generator = Generator { state: seed };
    for _made in 0..32u32 {
        append_statement(text, generator.statement())?;
    }
    Ok(())
}

/// Appends the piece.
fn push(text: &mut String, piece: &str) -> Result<(), AllocError>
    ensures { OnOk result (string_bytes text.new ≡ string_bytes text.old ++ piece.now) }
{
    text.push_str(piece)
}

/// Appends the lines before the statements.
fn append_declarations(text: &mut String) -> Result<(), AllocError>
    ensures { OnOk result (string_bytes text.new
        ≡ string_bytes text.old ++ spec.lines spec.declarations) }
{
    push(
        text,
        "merge sum(m, j, r) = m + j - r;
merge most(m, j, r) = pick(j > m, j, m);
cumulative a : int[16] by sum;
cumulative b : int[16] by most;
versioned v : int[16];
proc work(k: int) {
let t = 0;
while t < 50 {
",
    )
}

/// Appends the lines between the statements and the one that has the size.
fn append_procedures(text: &mut String) -> Result<(), AllocError>
    ensures { OnOk result (string_bytes text.new
        ≡ string_bytes text.old ++ spec.lines spec.procedures) }
{
    push(
        text,
        "t = t + 1;
}
}
proc go(n: int) {
if n > 0 {
let h = rfork work(n);
call go(n - 1);
rjoin h;
}
}
main {
",
    )
}

/// Appends the line that has the size.
fn append_start(text: &mut String, size: u32) -> Result<(), AllocError>
    ensures { OnOk result (string_bytes text.new
        ≡ string_bytes text.old ++ (spec.start size ++ 10 ∷ [])) }
{
    writeln!(text, "call go({size});")
}

/// Appends the lines behind the one that has the size.
fn append_prints(text: &mut String) -> Result<(), AllocError>
    ensures { OnOk result (string_bytes text.new
        ≡ string_bytes text.old ++ spec.lines spec.prints) }
{
    push(
        text,
        "print a[0], a[1], a[2], a[3], a[4], a[5], a[6], a[7];
print a[8], a[9], a[10], a[11], a[12], a[13], a[14], a[15];
print b[0], b[1], b[2], b[3], b[4], b[5], b[6], b[7];
print b[8], b[9], b[10], b[11], b[12], b[13], b[14], b[15];
print v[0], v[1], v[2], v[3], v[4], v[5], v[6], v[7];
print v[8], v[9], v[10], v[11], v[12], v[13], v[14], v[15];
}
",
    )
}

/// The text of the program that `load` runs: 32 statements drawn from the seed in a loop of 50
/// turns, in as many tasks as the size says.
pub fn load_text(alloc: Global, seed: u32, size: u32) -> Result<Vec<u8>, AllocError>
    ensures text { IfOk result (λ v. v.items ≡ spec.load_text seed size) }
    ensures short { IfOk result (λ v. length v.items ≤ 1048576) }
{
    let mut text = String::new(alloc);
    append_declarations(&mut text)?;
    append_statements(&mut text, seed)?;
    append_procedures(&mut text)?;
    append_start(&mut text, size)?;
    append_prints(&mut text)?;
    Ok(text.into_bytes())
}
