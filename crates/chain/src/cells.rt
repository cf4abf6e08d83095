// The note of an open configuration: made, and taken apart. Its layout stands in specs/Cells.antt.
ghost use Rattle.std.specs.Prelude.{◌≡◌};
ghost use Rattle.chain.specs.Cells;
ghost use Rattle.chain.specs.Code.CellParts.{NoteFits};

use machine::Config;

// A bit that no closed note has.
pub const OPEN_BIT: u32 = 2147483648;

pub fn open_note(c: Config, pushed: bool) -> u32
    requires { NoteFits c }
    ensures { result ≡ Cells.open_note c pushed }
{
    let parts = OPEN_BIT + c.head * 256 + c.symbol * 2;
    if pushed { parts + 1 } else { parts }
}

pub fn head_told(cell: u32) -> u32
    ensures { result ≡ Cells.head_told cell }
{
    let upper = cell / 256;
    upper % 131072
}

pub fn symbol_told(cell: u32) -> u32
    ensures { result ≡ Cells.symbol_told cell }
{
    let upper = cell / 2;
    upper % 128
}
