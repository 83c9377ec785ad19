//! What a station can do, what a caller wishes, and how pages are sent.

ghost use Rattle.signals.specs.Agreement.{supports_speed, place_of_speed, pixels_of, width_of_pixels};
ghost use Rattle.std.specs.Prelude.{◌≡◌, nat_eq};

use raster::Coding;

/// A modulation and its speed.
#[derive(Clone, Copy, Debug, PartialEq, Eq)]
pub enum Speed {
    /// V.27 ter at 2400 bits a second.
    V27At2400,
    /// V.27 ter at 4800 bits a second.
    V27At4800,
    /// V.29 at 7200 bits a second.
    V29At7200,
    /// V.29 at 9600 bits a second.
    V29At9600,
    /// V.17 at 7200 bits a second.
    V17At7200,
    /// V.17 at 9600 bits a second.
    V17At9600,
    /// V.17 at 12000 bits a second.
    V17At12000,
    /// V.17 at 14400 bits a second.
    V17At14400,
}

impl Speed {
    /// The speed's place among the eight, from 0.
    fn place(self) -> u8
        ensures { result ≡ place_of_speed self }
    {
        match self {
            Speed::V27At2400 => 0,
            Speed::V27At4800 => 1,
            Speed::V29At7200 => 2,
            Speed::V29At9600 => 3,
            Speed::V17At7200 => 4,
            Speed::V17At9600 => 5,
            Speed::V17At12000 => 6,
            Speed::V17At14400 => 7,
        }
    }

    /// Whether the speeds are the same.
    pub(crate) fn is(self, other: Speed) -> bool
        ensures { result ≡ nat_eq (place_of_speed self) (place_of_speed other) }
    {
        self.place() == other.place()
    }
}

/// The modems of a station, as bits 11 to 14 of its DIS say them.
#[derive(Clone, Copy, Debug, PartialEq, Eq)]
pub enum Modems {
    /// V.27 ter at 2400 bits a second alone, which each station has.
    Fallback,
    /// V.27 ter.
    V27,
    /// V.29.
    V29,
    /// V.27 ter and V.29.
    V27V29,
    /// V.27 ter, V.29 and V.17.
    V17,
}

impl Modems {
    /// Whether the modems have the speed.
    pub(crate) fn supports(self, speed: Speed) -> bool
        ensures { result ≡ supports_speed self speed }
    {
        match self {
            Modems::Fallback => matches!(speed, Speed::V27At2400),
            Modems::V27 => matches!(speed, Speed::V27At2400 | Speed::V27At4800),
            Modems::V29 => matches!(speed, Speed::V29At7200 | Speed::V29At9600),
            Modems::V27V29 => matches!(
                speed,
                Speed::V27At2400 | Speed::V27At4800 | Speed::V29At7200 | Speed::V29At9600
            ),
            Modems::V17 => true,
        }
    }
}

/// The width of a page's rows.
#[derive(Clone, Copy, Debug, PartialEq, Eq)]
pub enum PageWidth {
    /// 1728 pixels.
    W1728,
    /// 2048 pixels.
    W2048,
    /// 2432 pixels.
    W2432,
}

impl PageWidth {
    /// Returns the width with this number of pixels: 1728, 2048 or 2432; None for any other number.
    pub fn of_pixels(pixels: u32) -> Option<PageWidth>
        ensures { result ≡ width_of_pixels pixels }
    {
        match pixels {
            1728 => Some(PageWidth::W1728),
            2048 => Some(PageWidth::W2048),
            2432 => Some(PageWidth::W2432),
            _ => None,
        }
    }

    /// Returns the pixels of a row.
    pub fn pixels(self) -> u32
        ensures { result ≡ pixels_of self }
    {
        match self {
            PageWidth::W1728 => 1728,
            PageWidth::W2048 => 2048,
            PageWidth::W2432 => 2432,
        }
    }
}

/// What a station can do: the contents of a DIS. ITU-T T.30, 5.3.6.2.
#[derive(Clone, Copy, Debug, PartialEq, Eq)]
pub struct Caps {
    /// Whether it receives pages: bit 10.
    pub receiver: bool,
    /// The modems that it has.
    pub modems: Modems,
    /// Whether it takes pages of 7.7 lines a millimetre: bit 15.
    pub fine: bool,
    /// The widest page that it takes: bits 17 and 18.
    pub widest: PageWidth,
    /// Whether it reads the code of T.6: bit 31.
    pub t6: bool,
    /// Whether it has error correction: bit 27.
    pub ecm: bool,
}

/// How pages are sent: the contents of a DCS. ITU-T T.30, 5.3.6.2.
#[derive(Clone, Copy, Debug, PartialEq, Eq)]
pub struct Params {
    /// The speed of the pages.
    pub speed: Speed,
    /// Whether the pages have 7.7 lines a millimetre, else 3.85.
    pub fine: bool,
    /// The width of the pages.
    pub width: PageWidth,
    /// The code of the pages.
    pub coding: Coding,
    /// Whether frames have 64 octets of data, else 256.
    pub small: bool,
}

/// What a caller wishes for a call.
#[derive(Clone, Copy, Debug, PartialEq, Eq)]
pub struct Wish {
    /// The modems that it has.
    pub modems: Modems,
    /// The code of the pages, if the answerer reads it; else it is one-dimensional T.4.
    pub coding: Coding,
    /// Whether frames have 64 octets of data, else 256.
    pub small: bool,
}
