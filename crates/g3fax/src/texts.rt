//! The texts of numbers, for C: each ends in a 0, and stays where it is.

ghost use Rattle.g3fax.specs.Texts.{all_ended, as_table, caps_fields, carrier_names, code_fields, end_texts, ended, status_texts, text_by, wish_fields};
ghost use Rattle.std.specs.Prelude.{◌≡◌, codes};

/// A number and its text, which ends in a 0.
pub(crate) struct Text(u32, &'static [u8]);

/// The texts of statuses.
const STATUSES: [Text; 33] = [
    Text(0, b"done\0"),
    Text(1, b"the width isn't 1 to 2432 pixels\0"),
    Text(3, b"the page has more than 20000 rows\0"),
    Text(4, b"the page has no row\0"),
    Text(5, b"the header is no raw PBM header\0"),
    Text(6, b"the rows of the image are cut short\0"),
    Text(7, b"there is no image\0"),
    Text(9, b"no memory\0"),
    Text(10, b"no code that may stand there\0"),
    Text(11, b"the bits end inside a code\0"),
    Text(12, b"the run passes the row's width\0"),
    Text(13, b"the mode doesn't move to the right\0"),
    Text(14, b"the mode passes the row's width\0"),
    Text(15, b"the horizontal mode has no pixel\0"),
    Text(16, b"an extension code\0"),
    Text(17, b"the end of the facsimile block is missing\0"),
    Text(18, b"more than 20000 coded rows\0"),
    Text(20, b"the address isn't FF\0"),
    Text(21, b"the control field is neither 03 nor 13\0"),
    Text(22, b"a field is missing or cut short\0"),
    Text(
        26,
        b"a page isn't 1728, 2048 or 2432 pixels wide, as a call can have it\0",
    ),
    Text(28, b"the stations are not compatible\0"),
    Text(100, b"the handle is empty\0"),
    Text(101, b"the handle has something of another kind\0"),
    Text(102, b"the handle that is to be filled has something\0"),
    Text(103, b"the buffer has too little room\0"),
    Text(104, b"a number that stands for no choice\0"),
    Text(105, b"a length that isn't allowed\0"),
    Text(106, b"nothing is there\0"),
    Text(
        107,
        b"the size that a struct begins with isn't its own: begin it by G3_INIT\0",
    ),
    Text(108, b"no memory: a frame that was heard is lost\0"),
    Text(
        109,
        b"a struct is longer, or has more words, than this version of the library knows\0",
    ),
    Text(110, b"an address is NULL\0"),
];

/// The texts of why a call ended.
const ENDS: [Text; 13] = [
    Text(0, b"the call goes on\0"),
    Text(1, b"all pages went over\0"),
    Text(2, b"no DIS or no DCS came\0"),
    Text(3, b"the stations are not compatible\0"),
    Text(4, b"training failed at the lowest speed\0"),
    Text(5, b"a command had no reply, three times\0"),
    Text(6, b"a block was asked for a fourth time\0"),
    Text(7, b"the answerer was busy for too long\0"),
    Text(
        8,
        b"the other station left before all pages were confirmed\0",
    ),
    Text(9, b"a page couldn't be read\0"),
    Text(10, b"a page's code is too long\0"),
    Text(11, b"the call was stopped here\0"),
    Text(12, b"the line was lost\0"),
];

/// The names of carriers.
const CARRIERS: [Text; 9] = [
    Text(1, b"v21\0"),
    Text(2, b"v27ter-2400\0"),
    Text(3, b"v27ter-4800\0"),
    Text(4, b"v29-7200\0"),
    Text(5, b"v29-9600\0"),
    Text(6, b"v17-7200\0"),
    Text(7, b"v17-9600\0"),
    Text(8, b"v17-12000\0"),
    Text(9, b"v17-14400\0"),
];

/// The fields of a code.
const CODE_FIELDS: [Text; 2] = [Text(1, b"coding\0"), Text(2, b"order\0")];

/// The fields of what an answerer can do.
const CAPS_FIELDS: [Text; 3] = [
    Text(1, b"modems\0"),
    Text(2, b"widest\0"),
    Text(3, b"limit\0"),
];

/// The fields of what a caller wishes.
const WISH_FIELDS: [Text; 3] = [
    Text(1, b"modems\0"),
    Text(2, b"coding\0"),
    Text(3, b"frame\0"),
];

/// Returns the texts of statuses.
fn statuses() -> &'static [Text]
    ensures { as_table result.now ≡ all_ended status_texts }
{
    &STATUSES
}

/// Returns the texts of ends.
fn ends() -> &'static [Text]
    ensures { as_table result.now ≡ all_ended end_texts }
{
    &ENDS
}

/// Returns the names of carriers.
fn carriers() -> &'static [Text]
    ensures { as_table result.now ≡ all_ended carrier_names }
{
    &CARRIERS
}

/// Returns the names of the fields of a code.
pub(crate) fn code_fields() -> &'static [Text]
    ensures { as_table result.now ≡ all_ended code_fields }
{
    &CODE_FIELDS
}

/// Returns the names of the fields of what an answerer can do.
pub(crate) fn caps_fields() -> &'static [Text]
    ensures { as_table result.now ≡ all_ended caps_fields }
{
    &CAPS_FIELDS
}

/// Returns the names of the fields of what a caller wishes.
pub(crate) fn wish_fields() -> &'static [Text]
    ensures { as_table result.now ≡ all_ended wish_fields }
{
    &WISH_FIELDS
}

/// Returns the text of a number by a table; of one that isn't there, another text.
pub(crate) fn text_by(rows: &'static [Text], other: &'static [u8], number: u32) -> &'static [u8]
    ensures { result.now ≡ text_by (as_table rows.now) other.now number }
{
    for row in rows {
        if row.0 == number {
            return row.1;
        }
    }
    other
}

/// Tells the text of a status, in English; of another number that there is no such status.
#[unsafe(no_mangle)]
#[tactic(auto, using(crate::proofs::TextLemmas::ended_by))]
pub extern "C" fn g3_core_status_text(status: u32, text: &mut &'static [u8])
    ensures { text.new.now ≡ ended (text_by status_texts (codes "no such status") status) }
{
    *text = text_by(statuses(), b"no such status\0", status);
}

/// Tells why a call ended, in English; of another number that there is no such end.
#[unsafe(no_mangle)]
#[tactic(auto, using(crate::proofs::TextLemmas::ended_by))]
pub extern "C" fn g3_core_end_text(end: u32, text: &mut &'static [u8])
    ensures { text.new.now ≡ ended (text_by end_texts (codes "no such end") end) }
{
    *text = text_by(ends(), b"no such end\0", end);
}

/// Tells the name of a carrier, as `v17-14400`; `none` for a number that is no carrier's.
#[unsafe(no_mangle)]
#[tactic(auto, using(crate::proofs::TextLemmas::ended_by))]
pub extern "C" fn g3_core_carrier_name(carrier: u32, text: &mut &'static [u8])
    ensures { text.new.now ≡ ended (text_by carrier_names (codes "none") carrier) }
{
    *text = text_by(carriers(), b"none\0", carrier);
}
