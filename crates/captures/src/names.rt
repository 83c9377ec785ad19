//! The names of carriers and codes, as records have them.

ghost use Rattle.captures.specs.Names.{carrier_name, code_name};
ghost use Rattle.std.specs.Prelude.{◌≡◌};

use raster::Coding;
use signals::Speed;

/// The carrier of pages at a speed, as `faxtool station` names it: its modulation and its bits a second.
pub(crate) fn carrier(speed: Speed) -> &'static str
    ensures { result.now ≡ carrier_name speed }
{
    match speed {
        Speed::V27At2400 => "v27ter-2400",
        Speed::V27At4800 => "v27ter-4800",
        Speed::V29At7200 => "v29-7200",
        Speed::V29At9600 => "v29-9600",
        Speed::V17At7200 => "v17-7200",
        Speed::V17At9600 => "v17-9600",
        Speed::V17At12000 => "v17-12000",
        Speed::V17At14400 => "v17-14400",
    }
}

/// The code of pages, as `--code` names it.
pub(crate) fn code(coding: Coding) -> &'static str
    ensures { result.now ≡ code_name coding }
{
    match coding {
        Coding::OneDim => "mh",
        Coding::T6 => "mmr",
    }
}
