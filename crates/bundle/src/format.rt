// The format of a bundle: its check (18), and each capture as the part of the bundle that its pair names.
ghost use Rattle.std.specs.Prelude.{◌≡◌, ◌<◌, ◌≤◌, ℕ, List, length};
ghost use Rattle.refusal.specs.Checking.{checked};
ghost use Rattle.bundle.specs.Format.{max_captures, pairs_offset, count as count_of, pair_place, capture, pairs_from, bundle_refusal, bundle_of};
ghost use Rattle.bundle.specs.Conditions.{BundleRight};
ghost use Rattle.bundle.specs.Code.Judging.{Listed};

use codec::{read_pair, read_u32};
use refusal::{Kind, Refusal};
use std::marker::Model;

// The most captures.
pub const MAX_CAPTURES: usize = 64;

// Where the count stands, and the pairs.
const COUNT_OFFSET: usize = 0;

const PAIRS_OFFSET: usize = 4;

const PAIR_WIDTH: usize = 8;

// Where pair i stands; of the count, where the pairs end.
#[tactic(auto, unfolding(crate::specs::Format::pair_place))]
fn place_of(i: usize) -> usize
    requires { i ≤ max_captures }
    ensures { result ≡ pair_place i }
{
    PAIRS_OFFSET + PAIR_WIDTH * i
}

// How many captures.
#[tactic(auto, unfolding(crate::specs::Format::count))]
pub fn count(bundle: &[u8]) -> usize
    requires { pairs_offset ≤ length bundle.now }
    ensures { result ≡ count_of bundle.now }
{
    read_u32(bundle, COUNT_OFFSET) as usize
}

// The pairs one by one, of a bundle with room for them: each starts no earlier than the one before ends, and ends inside the bundle.
#[tactic(auto, using(crate::proofs::PairsChecked::pairs))]
fn check_pairs(bundle: &[u8], count: usize) -> Result<(), Refusal>
    requires { (count ≤ max_captures) × (pair_place count ≤ length bundle.now) }
    ensures { result ≡ checked (pairs_from count 0 (pair_place count) bundle.now) }
{
    let mut floor = place_of(count);
    for i in 0..count {
        let at = place_of(i);
        let pair = read_pair(bundle, at);
        let offset = pair.offset as usize;
        let end = offset + pair.long as usize;
        if offset < floor || bundle.len() < end {
            return Err(Refusal::new(Kind::Bundle, at));
        }
        floor = end;
    }
    Ok(())
}

// Refusal 18.
#[tactic(auto, using(crate::proofs::CountChecked::by_tests))]
pub fn check_bundle(bundle: &[u8]) -> Result<(), Refusal>
    ensures { result ≡ checked (bundle_refusal bundle.now) }
{
    if bundle.len() < PAIRS_OFFSET {
        return Err(Refusal::new(Kind::Bundle, 0));
    }
    let captures = count(bundle);
    if captures == 0 || MAX_CAPTURES < captures || bundle.len() < place_of(captures) {
        return Err(Refusal::new(Kind::Bundle, 0));
    }
    check_pairs(bundle, captures)
}

// Capture i: the bundle's own bytes.
#[tactic(auto, using(crate::proofs::PairsRead::captures))]
pub fn capture_of(bundle: &[u8], i: usize) -> &[u8]
    requires { Listed bundle.now i }
    ensures { result.now ≡ capture bundle.now i }
{
    let pair = read_pair(bundle, place_of(i));
    let offset = pair.offset as usize;
    let long = pair.long as usize;
    &bundle[offset..offset + long]
}

// A bundle that is not refused: clauses see its bytes.
#[derive(Drop)]
pub struct Bundle<'a> {
    bytes: &'a [u8],
}

impl<'a> Model for Bundle<'a> {
    ghost Value = { List ℕ };

    ghost view = { λ b. b.bytes.now };

    ghost invariant = { λ b. BundleRight b.bytes.now };
}

impl<'a> Bundle<'a> {
    #[tactic(auto, using(crate::proofs::CallChecked::passed_right, crate::proofs::CallChecked::made, crate::proofs::CallChecked::refused_bundle))]
    pub fn new(bytes: &'a [u8]) -> Result<Bundle<'a>, Refusal>
        ensures { result ≡ bundle_of bytes.now }
    {
        check_bundle(bytes)?;
        Ok(Bundle { bytes })
    }

    // How many captures.
    #[tactic(auto, using(crate::proofs::CallChecked::count_there))]
    pub fn count(&self) -> usize
        ensures counted { result ≡ count_of self.now }
        ensures few { result ≤ max_captures }
    {
        count(self.bytes)
    }

    // Capture i.
    #[tactic(auto, using(crate::proofs::PairsRead::listed))]
    pub fn capture(&self, i: usize) -> &'a [u8]
        requires { i < count_of self.now }
        ensures { result.now ≡ capture self.now i }
    {
        capture_of(self.bytes, i)
    }
}
