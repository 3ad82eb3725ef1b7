//! Instructions that neither read nor write a location, each up to what it leaves to be done.

ghost use Rattle.std.specs.Prelude.{◌≡◌, ◌+◌, ◌-◌, ◌<◌, ◌∷◌, drop, length, not};
ghost use Rattle.std.specs.Prelude.{false, int_lt, int_le, slice_get, Some, true};
ghost use Rattle.rev_num.specs.Arith.{sum_of, difference_of, product_of, quotient_of};
ghost use Rattle.rev_num.specs.Arith.{remainder_of, negation_of};
ghost use Rattle.rev_code.specs.Step as step;
ghost use Rattle.block_run.specs.Plain as p;
ghost use Rattle.block_run.specs.Area.{IsPlaced, run_of};
ghost use Rattle.block_run.specs.Deeds.{IsDeed, IsDeedOf};
ghost use Rattle.block_run.specs.Stops.{cause_of};

use crate::deed::Deed;
use crate::registers::{BlockTrap, Registers};
use rev_code::CodeBlock;
use rev_num::{NumFault, add, div, int_of_word, mul, neg, rem, sub, word_of_int};

fn fault_of(fault: NumFault) -> BlockTrap
    ensures { cause_of result ≡ step.cause_of fault }
{
    match fault {
        NumFault::Overflow => BlockTrap::Overflow,
        NumFault::ZeroDivisor => BlockTrap::ZeroDivisor,
    }
}

/// Puts a word on the stack.
#[inline(always)]
pub fn push(b: &CodeBlock, words: &[u64], r: &Registers, word: u64) -> Deed
    requires placed { IsPlaced b.now r.now (length words.now) 0 }
    requires room { r.now.top < length words.now }
    ensures { IsDeedOf (λ q stack. p.on q (word ∷ stack)) b.now words.now r.now result }
{
    Deed::Pushes(word)
}

/// Puts a word in place of the one on top.
#[inline(always)]
pub fn put(b: &CodeBlock, words: &[u64], r: &Registers, word: u64) -> Deed
    requires placed { IsPlaced b.now r.now (length words.now) 1 }
    ensures { IsDeedOf (λ q stack. p.on q (word ∷ drop 1 stack)) b.now words.now r.now result }
{
    Deed::Puts(word)
}

/// Puts a word in place of the two on top.
#[inline(always)]
fn put_two(b: &CodeBlock, words: &[u64], r: &Registers, word: u64) -> Deed
    requires placed { IsPlaced b.now r.now (length words.now) 2 }
    ensures { IsDeedOf (λ q stack. p.on q (word ∷ drop 2 stack)) b.now words.now r.now result }
{
    Deed::PutsTwo(word)
}

/// The word on top.
#[inline(always)]
pub fn top(b: &CodeBlock, words: &[u64], r: &Registers) -> u64
    requires placed { IsPlaced b.now r.now (length words.now) 1 }
    ensures { (run_of b.now words.now r.now).stack ≡ result ∷ drop 1
        (run_of b.now words.now r.now).stack }
{
    words[r.top - 1]
}

/// The two words on top, the lower one first.
#[inline(always)]
pub fn two(b: &CodeBlock, words: &[u64], r: &Registers) -> (u64, u64)
    requires placed { IsPlaced b.now r.now (length words.now) 2 }
    ensures { (run_of b.now words.now r.now).stack ≡ result.1 ∷ result.0 ∷ drop 2
        (run_of b.now words.now r.now).stack }
{
    (words[r.top - 2], words[r.top - 1])
}

/// A number in place of the two words on top, or why there is none.
#[inline(always)]
fn number(b: &CodeBlock, words: &[u64], r: &Registers, v: Result<i64, NumFault>) -> Deed
    requires placed { IsPlaced b.now r.now (length words.now) 2 }
    ensures { IsDeedOf (λ q stack. p.number q (drop 2 stack) v) b.now words.now r.now result }
{
    match v {
        Ok(z) => put_two(b, words, r, word_of_int(z)),
        Err(fault) => Deed::Traps(fault_of(fault)),
    }
}

/// The sum.
#[inline(always)]
pub fn act_add(b: &CodeBlock, words: &[u64], r: &Registers) -> Deed
    requires placed { IsPlaced b.now r.now (length words.now) 2 }
    ensures { IsDeedOf (p.of_ints sum_of) b.now words.now r.now result }
{
    let (x, y) = two(b, words, r);
    number(b, words, r, add(int_of_word(x), int_of_word(y)))
}

/// The difference.
#[inline(always)]
pub fn act_sub(b: &CodeBlock, words: &[u64], r: &Registers) -> Deed
    requires placed { IsPlaced b.now r.now (length words.now) 2 }
    ensures { IsDeedOf (p.of_ints difference_of) b.now words.now r.now result }
{
    let (x, y) = two(b, words, r);
    number(b, words, r, sub(int_of_word(x), int_of_word(y)))
}

/// The product.
#[inline(always)]
pub fn act_mul(b: &CodeBlock, words: &[u64], r: &Registers) -> Deed
    requires placed { IsPlaced b.now r.now (length words.now) 2 }
    ensures { IsDeedOf (p.of_ints product_of) b.now words.now r.now result }
{
    let (x, y) = two(b, words, r);
    number(b, words, r, mul(int_of_word(x), int_of_word(y)))
}

/// The quotient.
#[inline(always)]
pub fn act_div(b: &CodeBlock, words: &[u64], r: &Registers) -> Deed
    requires placed { IsPlaced b.now r.now (length words.now) 2 }
    ensures { IsDeedOf (p.of_ints quotient_of) b.now words.now r.now result }
{
    let (x, y) = two(b, words, r);
    number(b, words, r, div(int_of_word(x), int_of_word(y)))
}

/// The remainder.
#[inline(always)]
pub fn act_rem(b: &CodeBlock, words: &[u64], r: &Registers) -> Deed
    requires placed { IsPlaced b.now r.now (length words.now) 2 }
    ensures { IsDeedOf (p.of_ints remainder_of) b.now words.now r.now result }
{
    let (x, y) = two(b, words, r);
    number(b, words, r, rem(int_of_word(x), int_of_word(y)))
}

/// The negation.
#[inline(always)]
pub fn act_neg(b: &CodeBlock, words: &[u64], r: &Registers) -> Deed
    requires placed { IsPlaced b.now r.now (length words.now) 1 }
    ensures { IsDeedOf (p.of_int negation_of) b.now words.now r.now result }
{
    match neg(int_of_word(top(b, words, r))) {
        Ok(z) => put(b, words, r, word_of_int(z)),
        Err(fault) => Deed::Traps(fault_of(fault)),
    }
}

/// The word of a truth value.
#[inline(always)]
fn flag(holds: bool) -> u64
    ensures { result ≡ p.flag holds }
{
    if holds { 1 } else { 0 }
}

/// The other truth value.
#[inline(always)]
pub fn act_not(b: &CodeBlock, words: &[u64], r: &Registers) -> Deed
    requires placed { IsPlaced b.now r.now (length words.now) 1 }
    ensures { IsDeedOf p.of_bool b.now words.now r.now result }
{
    let word = top(b, words, r);
    put(b, words, r, flag(word == 0))
}

/// Whether the two words on top are equal.
#[inline(always)]
pub fn act_eq(b: &CodeBlock, words: &[u64], r: &Registers) -> Deed
    requires placed { IsPlaced b.now r.now (length words.now) 2 }
    ensures { IsDeedOf (p.equality (λ same. same)) b.now words.now r.now result }
{
    let (x, y) = two(b, words, r);
    put_two(b, words, r, flag(x == y))
}

/// Whether the two words on top differ.
#[inline(always)]
pub fn act_ne(b: &CodeBlock, words: &[u64], r: &Registers) -> Deed
    requires placed { IsPlaced b.now r.now (length words.now) 2 }
    ensures { IsDeedOf (p.equality not) b.now words.now r.now result }
{
    let (x, y) = two(b, words, r);
    put_two(b, words, r, flag(x != y))
}

/// Whether the lower number is less than the upper one.
#[inline(always)]
pub fn act_lt(b: &CodeBlock, words: &[u64], r: &Registers) -> Deed
    requires placed { IsPlaced b.now r.now (length words.now) 2 }
    ensures { IsDeedOf (p.order int_lt) b.now words.now r.now result }
{
    let (x, y) = two(b, words, r);
    put_two(b, words, r, flag(int_of_word(x) < int_of_word(y)))
}

/// Whether the lower number is not more than the upper one.
#[inline(always)]
pub fn act_le(b: &CodeBlock, words: &[u64], r: &Registers) -> Deed
    requires placed { IsPlaced b.now r.now (length words.now) 2 }
    ensures { IsDeedOf (p.order int_le) b.now words.now r.now result }
{
    let (x, y) = two(b, words, r);
    put_two(b, words, r, flag(int_of_word(x) <= int_of_word(y)))
}

/// Whether the lower number is more than the upper one.
#[inline(always)]
pub fn act_gt(b: &CodeBlock, words: &[u64], r: &Registers) -> Deed
    requires placed { IsPlaced b.now r.now (length words.now) 2 }
    ensures { IsDeedOf (p.order (λ x y. int_lt y x)) b.now words.now r.now result }
{
    let (x, y) = two(b, words, r);
    put_two(b, words, r, flag(int_of_word(x) > int_of_word(y)))
}

/// Whether the lower number is not less than the upper one.
#[inline(always)]
pub fn act_ge(b: &CodeBlock, words: &[u64], r: &Registers) -> Deed
    requires placed { IsPlaced b.now r.now (length words.now) 2 }
    ensures { IsDeedOf (p.order (λ x y. int_le y x)) b.now words.now r.now result }
{
    let (x, y) = two(b, words, r);
    put_two(b, words, r, flag(int_of_word(x) >= int_of_word(y)))
}

/// Puts a local on the stack.
#[inline(always)]
pub fn act_load(b: &CodeBlock, words: &[u64], r: &Registers, n: u8) -> Deed
    requires placed { IsPlaced b.now r.now (length words.now) 0 }
    requires room { r.now.top < length words.now }
    requires local { n < length b.now.locals }
    ensures { IsDeedOf (λ q stack. p.pushes q stack (slice_get q.locals n)) b.now words.now r.now result }
{
    let word = local(b, words, r, n);
    push(b, words, r, word)
}

/// A local.
#[inline(always)]
fn local(b: &CodeBlock, words: &[u64], r: &Registers, n: u8) -> u64
    requires placed { IsPlaced b.now r.now (length words.now) 0 }
    requires local { n < length b.now.locals }
    ensures { slice_get (run_of b.now words.now r.now).locals n ≡ Some result }
{
    words[r.base + n as usize]
}

/// Takes the word on top into a local.
#[inline(always)]
pub fn act_store(b: &CodeBlock, words: &mut [u64], r: &mut Registers, n: u8) -> Deed
    requires placed { IsPlaced b.now r.old (length words.old) 1 }
    requires local { n < length b.now.locals }
    ensures { IsDeed (p.into_local (run_of b.now words.old r.old) n
        (run_of b.now words.old r.old).stack)
        b.now words.old words.new r.old r.new result }
{
    let word = words[r.top - 1];
    words[r.base + n as usize] = word;
    Deed::Takes
}

/// Jumps.
#[inline(always)]
pub fn act_jump(b: &CodeBlock, words: &[u64], r: &Registers, to: u32) -> Deed
    requires placed { IsPlaced b.now r.now (length words.now) 0 }
    ensures { IsDeedOf (λ q stack. p.moves (record q { at = to })) b.now words.now r.now result }
{
    Deed::Jumps(to)
}

/// Takes the word on top, and jumps where it is `false`.
#[inline(always)]
pub fn act_jump_if_false(b: &CodeBlock, words: &[u64], r: &mut Registers, to: u32) -> Deed
    requires placed { IsPlaced b.now r.old (length words.now) 1 }
    ensures { IsDeed (p.jump_if false to (run_of b.now words.now r.old)
        (run_of b.now words.now r.old).stack)
        b.now words.now words.now r.old r.new result }
{
    let word = top(b, words, r);
    if word != 0 {
        return Deed::Takes;
    }
    r.top -= 1;
    Deed::Jumps(to)
}

/// Takes the word on top, and jumps where it is `true`.
#[inline(always)]
pub fn act_jump_if_true(b: &CodeBlock, words: &[u64], r: &mut Registers, to: u32) -> Deed
    requires placed { IsPlaced b.now r.old (length words.now) 1 }
    ensures { IsDeed (p.jump_if true to (run_of b.now words.now r.old)
        (run_of b.now words.now r.old).stack)
        b.now words.now words.now r.old r.new result }
{
    let word = top(b, words, r);
    if word == 0 {
        return Deed::Takes;
    }
    r.top -= 1;
    Deed::Jumps(to)
}

/// Pays 1 for a statement and sets its line, or traps where no fuel is left.
#[inline(always)]
pub fn act_charge(b: &CodeBlock, words: &[u64], r: &mut Registers, line: u32) -> Deed
    requires placed { IsPlaced b.now r.old (length words.now) 0 }
    ensures { IsDeed (p.charge (run_of b.now words.now r.old) line r.old.fuel)
        b.now words.now words.now r.old r.new result }
{
    r.line = line;
    if r.fuel == 0 {
        return Deed::Traps(BlockTrap::Spent);
    }
    r.fuel -= 1;
    Deed::Goes
}

/// Traps where the word on top is not `true`.
#[inline(always)]
pub fn act_assert(b: &CodeBlock, words: &[u64], r: &Registers) -> Deed
    requires placed { IsPlaced b.now r.now (length words.now) 1 }
    ensures { IsDeedOf p.assert b.now words.now r.now result }
{
    if top(b, words, r) == 0 {
        return Deed::Traps(BlockTrap::Assert);
    }
    Deed::Takes
}

/// Takes the word on top.
#[inline(always)]
pub fn act_pop(b: &CodeBlock, words: &[u64], r: &Registers) -> Deed
    requires placed { IsPlaced b.now r.now (length words.now) 1 }
    ensures { IsDeedOf p.pop b.now words.now r.now result }
{
    Deed::Takes
}

/// Puts the number at a position of the input in its place.
#[inline(always)]
pub fn act_load_input(b: &CodeBlock, words: &[u64], r: &Registers, inputs: &[i64]) -> Deed
    requires placed { IsPlaced b.now r.now (length words.now) 1 }
    ensures { IsDeedOf (p.from_input inputs.now) b.now words.now r.now result }
{
    let at = top(b, words, r);
    if at < inputs.len() as u64 {
        let z = inputs[at as usize];
        return put(b, words, r, word_of_int(z));
    }
    Deed::Traps(BlockTrap::Index)
}

/// Puts the number of inputs on the stack.
#[inline(always)]
pub fn act_count_input(b: &CodeBlock, words: &[u64], r: &Registers, inputs: &[i64]) -> Deed
    requires placed { IsPlaced b.now r.now (length words.now) 0 }
    requires room { r.now.top < length words.now }
    ensures { IsDeedOf (λ q stack. p.on q (length inputs.now ∷ stack)) b.now words.now r.now result }
{
    push(b, words, r, inputs.len() as u64)
}
