// The number kept beside a configuration: adjusted by products of what the environment keeps, and taken apart by reciprocals. No step divides but by powers of two.
ghost use Rattle.std.specs.Prelude.{◌≡◌, ◌+◌, ◌*◌, ◌/◌, ◌^◌, ◌<◌};
ghost use Rattle.chain.specs.Step.{number_in, config_in};
ghost use Rattle.chain.specs.Chain.{reciprocals_by};
ghost use Rattle.chain.specs.Code.NumberParts.{u32_end, Numbered, Moves, Apart};

use crate::{Environment, Reciprocals};
use machine::Config;

// The powers of two that the reciprocals are scaled by: more than any number times its divisor.
const SYMBOLS_SCALE: u64 = 68719476736;

const STRIDE_SCALE: u64 = 4503599627370496;

// The reciprocals, made once for all steps.
pub fn reciprocals_of(symbols: u32, stride: u32) -> Reciprocals
    requires { (0 < symbols) × (0 < stride) }
    ensures { result ≡ reciprocals_by symbols stride }
{
    Reciprocals {
        symbols: SYMBOLS_SCALE / u64::from(symbols) + 1,
        stride: STRIDE_SCALE / u64::from(stride) + 1,
    }
}

// A number times a reciprocal, without the power of two that this is scaled by.
fn divided<const SCALE: u64>(k: u32, reciprocal: u64) -> u32
    requires some { 0 < SCALE }
    requires product_fits { k * reciprocal < 2 ^ 64 }
    requires fits { k * reciprocal / SCALE < 2 ^ 32 }
    ensures { result ≡ k * reciprocal / SCALE }
{
    (u64::from(k) * reciprocal / SCALE) as u32
}

// The configuration of a number.
pub fn config_from(e: Environment, k: u32) -> Config
    requires { Apart e k }
    ensures { result ≡ config_in e k }
{
    let sizes = e.sizes;
    // what the number says without its symbol, and its state
    let upper = divided::<SYMBOLS_SCALE>(k, e.reciprocals.symbols);
    let state = divided::<STRIDE_SCALE>(k, e.reciprocals.stride);
    let head = upper - state * sizes.places;
    let symbol = k - upper * sizes.symbols;
    Config {
        state,
        head,
        symbol,
    }
}

// What the head counts for in the number of configuration c: all of it but the state's and the symbol's share.
pub fn row_of(e: Environment, number: u32, c: Config) -> u32
    requires { Numbered e c number }
    ensures { result ≡ c.head * e.sizes.symbols }
{
    let share = c.state * e.stride;
    number - share - c.symbol
}

// The number of a configuration with this row.
pub fn in_row(e: Environment, row: u32, state: u32, symbol: u32) -> u32
    requires { state * e.stride + row + symbol < u32_end }
    ensures { result ≡ state * e.stride + row + symbol }
{
    let share = state * e.stride;
    share + row + symbol
}

// The number of c, to which a rule leads from `at`, adjusted from that of `at`. A move goes one place at most, so that `back` is 0, 1 or 2: a product
// and no test, for which the number would have to wait. The contract asks for the right side alone: from there any place back is as good.
pub fn moved_number(e: Environment, number: u32, at: Config, c: Config) -> u32
    requires { Moves e number at c }
    ensures { result ≡ number_in e c }
{
    let sizes = e.sizes;
    let symbols = sizes.symbols;
    let back = at.head + 1 - c.head;
    let row = row_of(e, number, at) + symbols - back * symbols;
    in_row(e, row, c.state, c.symbol)
}
