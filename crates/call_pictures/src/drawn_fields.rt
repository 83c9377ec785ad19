//! What a picture of a call says of the fields of its signals.

ghost use Rattle.call_pictures.specs.DrawnFields.{code_name, drawn_entry, drawn_fields, end_name, fine_name, speed_name};
ghost use Rattle.std.specs.Prelude.{◌≡◌};

use line_sim::{Entry, Fields};
use page_code::Coding;
use signals::{PageEnd, Speed};
use std::fmt;

/// What is drawn of fields.
fn drawn_fields(fields: Fields) -> Fields
    ensures { result ≡ drawn_fields fields }
{
    match fields {
        Fields::Dcs(params) => Fields::Dcs(params),
        Fields::Pps { ends, .. } => Fields::Pps {
            ends,
            page: 0,
            block: 0,
            last: 0,
        },
        _ => Fields::Nothing,
    }
}

/// An event as it is drawn.
pub(crate) fn drawn(entry: &Entry) -> Entry
    ensures { result ≡ drawn_entry entry.now }
{
    Entry {
        fields: drawn_fields(entry.fields),
        ..*entry
    }
}

/// The modulation and the speed of pages.
fn speed_name(speed: Speed) -> &'static str
    ensures { result.now ≡ speed_name speed }
{
    match speed {
        Speed::V27At2400 => " V.27 ter 2400",
        Speed::V27At4800 => " V.27 ter 4800",
        Speed::V29At7200 => " V.29 7200",
        Speed::V29At9600 => " V.29 9600",
        Speed::V17At7200 => " V.17 7200",
        Speed::V17At9600 => " V.17 9600",
        Speed::V17At12000 => " V.17 12000",
        Speed::V17At14400 => " V.17 14400",
    }
}

/// The code of pages.
fn code_name(coding: Coding) -> &'static str
    ensures { result.now ≡ code_name coding }
{
    match coding {
        Coding::OneDim => " T.4 ",
        Coding::T6 => " T.6 ",
    }
}

/// The lines of pages, if they are fine ones.
fn fine_name(fine: bool) -> &'static str
    ensures { result.now ≡ fine_name fine }
{
    if fine { " fine" } else { "" }
}

/// What ends with the block of a PPS.
fn end_name(ends: PageEnd) -> &'static str
    ensures { result.now ≡ end_name ends }
{
    match ends {
        PageEnd::Null => "-NULL",
        PageEnd::Mps => "-MPS",
        PageEnd::Eom => "-EOM",
        PageEnd::Eop => "-EOP",
    }
}

/// What is written of fields after the name of their signal.
#[derive(Drop)]
pub(crate) struct FieldsText(pub(crate) Fields);

impl fmt::Display for FieldsText {
    ghost use Rattle.std.specs.Prelude.{Some};
    ghost use Rattle.call_pictures.specs.DrawnFields.{fields_text};

    ghost output = { λ text. Some (fields_text text.0) };

    fn fmt<W: fmt::Write>(&self, f: &mut fmt::Formatter<W>) -> fmt::Result {
        match self.0 {
            Fields::Dcs(params) => write!(
                f,
                "{}{}{}{}",
                speed_name(params.speed),
                code_name(params.coding),
                params.width.pixels(),
                fine_name(params.fine),
            ),
            Fields::Pps { ends, .. } => write!(f, "{}", end_name(ends)),
            _ => write!(f, ""),
        }
    }
}
