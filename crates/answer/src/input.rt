// The program's input: the pairs (16, g) and (16 + g, n), a grammar of g bytes, a capture of n, nothing after; and refusal 14.
ghost use Rattle.std.specs.Prelude.{◌≡◌, ◌≤◌, length};
ghost use Rattle.refusal.specs.Checking.{checked};
ghost use Rattle.answer.specs.Input.{pairs_length, capture_offset, first_pair_right, second_pair_right, input_refusal};

use codec::read_pair;
use refusal::{Kind, Refusal};

// The pairs' own length, where the grammar begins.
pub const PAIRS_LENGTH: usize = 16;

// Where the pairs stand.
const GRAMMAR_PAIR: usize = 0;

const CAPTURE_PAIR: usize = 8;

// The longest input, in bytes.
pub const MAX_INPUT: usize = 65536;

// Where the grammar ends and the capture begins.
// kept: the fact stands in three clauses: a type for an input of 16 bytes or more would be made in check_input and again in judge_input, for three reads.
#[tactic(auto, unfolding(crate::specs::Input::capture_offset))]
pub fn capture_offset(input: &[u8]) -> usize
    requires { pairs_length ≤ length input.now }
    ensures { result ≡ capture_offset input.now }
{
    PAIRS_LENGTH + read_pair(input, GRAMMAR_PAIR).long as usize
}

// kept: two functions, as two definitions, since the grammar may end anywhere in the input and the capture at its end alone.
#[tactic(auto, unfolding(crate::specs::Input::first_pair_right))]
fn first_pair_right(input: &[u8]) -> bool
    requires { pairs_length ≤ length input.now }
    ensures { result ≡ first_pair_right input.now }
{
    let pair = read_pair(input, GRAMMAR_PAIR);
    pair.offset as usize == PAIRS_LENGTH && capture_offset(input) <= input.len()
}

#[tactic(auto, unfolding(crate::specs::Input::second_pair_right))]
fn second_pair_right(input: &[u8]) -> bool
    requires { pairs_length ≤ length input.now }
    ensures { result ≡ second_pair_right input.now }
{
    let pair = read_pair(input, CAPTURE_PAIR);
    let middle = capture_offset(input);
    pair.offset as usize == middle && middle + pair.long as usize == input.len()
}

// Refusal 14.
#[tactic(auto, unfolding(crate::specs::Input::input_refusal, refusal::specs::Checking::checked))]
pub fn check_input(input: &[u8]) -> Result<(), Refusal>
    ensures { result ≡ checked (input_refusal input.now) }
{
    if input.len() < PAIRS_LENGTH || MAX_INPUT < input.len() {
        return Err(Refusal::new(Kind::Input, 0));
    }
    if !first_pair_right(input) {
        return Err(Refusal::new(Kind::Input, GRAMMAR_PAIR));
    }
    if !second_pair_right(input) {
        return Err(Refusal::new(Kind::Input, CAPTURE_PAIR));
    }
    Ok(())
}
