//! The fewest losses that break a driven call, each of a kind, and that it goes through with one less.

use line_sim::{DrivenCall, Fate, Patience};
use page_code::Coding;
use raster::{Document, Page, Row};
use signals::{Caps, Modems, PageWidth, Wish};
use stations::End;
use std::alloc::Global;
use std::test::Fail;

/// The fates that letters name: C comes, L lost, S spoiled; blanks are left out.
fn fates_of(alloc: Global, letters: &str) -> Result<Vec<Fate>, Fail> {
    let mut fates = Vec::new(alloc);
    for letter in letters.bytes() {
        match letter {
            b'C' => fates.push(Fate::Comes)?,
            b'L' => fates.push(Fate::Lost)?,
            b'S' => fates.push(Fate::Spoiled)?,
            _ => (),
        }
    }
    Ok(fates)
}

/// A call of a page of one white row, with six common speeds and three DIS in a wait.
fn white_call(alloc: Global) -> Result<DrivenCall, Fail> {
    let mut page = Page::new(alloc, 1728, false)?;
    page.push_row(Row::from_runs(alloc, &[1728])?)?;
    let wish = Wish {
        modems: Modems::V17,
        coding: Coding::T6,
        small: false,
    };
    let caps = Caps {
        receiver: true,
        modems: Modems::V17,
        fine: true,
        widest: PageWidth::W2432,
        t6: true,
        ecm: true,
    };
    let document = Document::new(alloc, page)?;
    let patience = Patience { calls: 3, busy: 3 };
    Ok(DrivenCall::new(alloc, document, wish, caps, patience)?)
}

/// How a call whose items have these fates ends: whether nothing comes after its end, both ends, and the number of stored pages.
type Ending = (bool, Option<End>, Option<End>, usize);

/// The ending of a call whose items have these fates.
fn ending_of(alloc: Global, letters: &str) -> Result<Ending, Fail> {
    let mut call = white_call(alloc)?;
    let _steps = call.drive(&fates_of(alloc, letters)?, 1000)?;
    let is_over = call.step(Fate::Comes).is_none();
    let ending = call.into_live().into_ending();
    Ok((
        is_over,
        ending.caller_end,
        ending.answerer_end,
        ending.pages.len(),
    ))
}

/// The letters of a call, the ends of the caller and the answerer, and the number of stored pages. With no loss there come: DIS, DCS, the
/// training check, CFR; FCD, three RCP, PPS, MCF; DCN.
const CALLS: [(&str, End, End, usize); 15] = [
    // the DIS
    ("L L", End::Normal, End::Normal, 1),
    ("L L L", End::NoAnswer, End::PeerLeft, 0),
    // the DCS, whose training check comes; and the CFR
    ("C LC LC", End::Normal, End::Normal, 1),
    ("C LC LC LC", End::NoReply, End::PeerLeft, 0),
    ("C CCL CCL", End::Normal, End::Normal, 1),
    ("C CCL CCL CCL", End::NoReply, End::PeerLeft, 0),
    // the training check at each of six speeds, whose FTT comes
    ("C CSC CSC CSC CSC CSC", End::Normal, End::Normal, 1),
    ("C CSC CSC CSC CSC CSC CSC", End::Training, End::PeerLeft, 0),
    // the PPS
    ("CCCC CCCCL L", End::Normal, End::Normal, 1),
    ("CCCC CCCCL L L", End::NoReply, End::PeerLeft, 0),
    // the PPS, and then its MCF: the page is stored, and the caller never hears it
    ("CCCC CCCCL CL", End::Normal, End::Normal, 1),
    ("CCCC CCCCL CL CL", End::NoReply, End::Normal, 1),
    // the same FCD in each burst, whose PPR comes
    ("CCCC LCCCCC LCCCCC LCCCCC", End::Normal, End::Normal, 1),
    (
        "CCCC LCCCCC LCCCCC LCCCCC LCCCCC",
        End::Unreadable,
        End::PeerLeft,
        0,
    ),
    // the DCN
    ("CCCC CCCCCC L", End::Normal, End::NoAnswer, 1),
];

#[test]
fn the_fewest_losses_that_break_a_call(rt: HostRuntime) -> Result<(), Fail> {
    for (letters, caller, answerer, pages) in CALLS {
        let ending = (true, Some(caller), Some(answerer), pages);
        assert_eq!(rt; ending_of(rt.alloc(), letters)?, ending, "{letters}");
    }
    Ok(())
}
