//! The rules of the referee in words.

ghost use Rattle.call_logs.specs.RuleWords.{is_reading, rule_name, rule_reason, rule_words};
ghost use Rattle.std.specs.Prelude.{◌≡◌};

use referee::Rule;

/// Returns whether a rule can be read otherwise in T.30.
pub fn is_reading(rule: Rule) -> bool
    ensures { result ≡ is_reading rule }
{
    match rule {
        Rule::WrongCount => true,
        Rule::WrongSide
        | Rule::Ended
        | Rule::NotOffered
        | Rule::NotTrained
        | Rule::NoBurst
        | Rule::BadLength
        | Rule::OutOfOrder
        | Rule::NotAskedFor
        | Rule::NewData
        | Rule::RcpCount
        | Rule::Uncounted
        | Rule::NotSentAgain
        | Rule::NotRepeated
        | Rule::WrongCounts
        | Rule::NoCommand
        | Rule::NotWhole
        | Rule::NotCome
        | Rule::AsksAgain
        | Rule::AsksNothing
        | Rule::BadMap
        | Rule::NotBusy => false,
    }
}

/// Returns the name of a rule.
pub(crate) fn rule_name(rule: Rule) -> &'static str
    ensures { result.now ≡ rule_name rule }
{
    match rule {
        Rule::WrongSide => "wrong-side",
        Rule::Ended => "ended",
        Rule::NotOffered => "not-offered",
        Rule::NotTrained => "not-trained",
        Rule::NoBurst => "no-burst",
        Rule::BadLength => "bad-length",
        Rule::OutOfOrder => "out-of-order",
        Rule::NotAskedFor => "not-asked-for",
        Rule::NewData => "new-data",
        Rule::RcpCount => "rcp-count",
        Rule::Uncounted => "uncounted",
        Rule::WrongCount => "wrong-count",
        Rule::NotSentAgain => "not-sent-again",
        Rule::NotRepeated => "not-repeated",
        Rule::WrongCounts => "wrong-counts",
        Rule::NoCommand => "no-command",
        Rule::NotWhole => "not-whole",
        Rule::NotCome => "not-come",
        Rule::AsksAgain => "asks-again",
        Rule::AsksNothing => "asks-nothing",
        Rule::BadMap => "bad-map",
        Rule::NotBusy => "not-busy",
    }
}

/// Returns what is wrong with a frame that breaks a rule.
pub(crate) fn rule_words(rule: Rule) -> &'static str
    ensures { result.now ≡ rule_words rule }
{
    match rule {
        Rule::WrongSide => "it is a signal of the other station",
        Rule::Ended => "its station has said DCN before",
        Rule::NotOffered => "no DIS before it offers what it asks for",
        Rule::NotTrained => "the caller's last frame before it is no DCS",
        Rule::NoBurst => "no CFR, PPR or MCF lets this burst begin",
        Rule::BadLength => "it has no octet of data, or more than were agreed",
        Rule::OutOfOrder => "its number isn't above that of the frame before it",
        Rule::NotAskedFor => "the PPR doesn't ask for it",
        Rule::NewData => "it was sent before with other data",
        Rule::RcpCount => "three RCPs end a burst, no more and no fewer",
        Rule::Uncounted => "it counts a frame that was never sent",
        Rule::WrongCount => "it doesn't count a frame of the block that was sent",
        Rule::NotSentAgain => "a frame that the PPR asks for wasn't sent again",
        Rule::NotRepeated => "it differs from the PPS that it repeats",
        Rule::WrongCounts => "its page and block aren't those that come now",
        Rule::NoCommand => "the caller's last frame before it is no PPS or RR",
        Rule::NotWhole => "a frame of the block can't have come",
        Rule::NotCome => "it doesn't ask for a frame that can't have come",
        Rule::AsksAgain => "it asks for a frame that had come",
        Rule::AsksNothing => "it asks for no frame of the block",
        Rule::BadMap => "its bit for a number beyond the block is 0",
        Rule::NotBusy => "no RNR was said since the last PPS and the last FCD",
    }
}

/// Returns why a rule is one, with the section of T.30.
pub(crate) fn rule_reason(rule: Rule) -> &'static str
    ensures { result.now ≡ rule_reason rule }
{
    match rule {
        Rule::WrongSide =>
            "T.30, 5.3.6.1: DIS, CFR, FTT, MCF, PPR and RNR are the answerer's; DCS, FCD, RCP, PPS and RR are the caller's",
        Rule::Ended =>
            "T.30, 5.3.6.1: a station that says DCN leaves the call; the other one may go on, since a DCN can be lost",
        Rule::NotOffered =>
            "T.30, 5.3.6.2: a DCS asks for what a DIS offers; any DIS before it will do, as a log doesn't say which was heard",
        Rule::NotTrained | Rule::NoCommand =>
            "T.30, 5.3.6.1: CFR and FTT answer a DCS, and MCF, PPR and RNR a PPS or an RR; who hears none says nothing",
        Rule::NoBurst =>
            "T.30, A.4: a caller that hears no CFR, PPR or MCF repeats its command, and sends no frames of a block",
        Rule::BadLength =>
            "T.30, A.3: a frame of a block has 1 to 256 octets of data, or 1 to 64 if the last DCS says so",
        Rule::OutOfOrder =>
            "T.30, A.3: the frames of a burst are sent in the order of their numbers, each once",
        Rule::NotAskedFor | Rule::NotSentAgain =>
            "T.30, A.4.4: after PPR the caller sends the frames again that it asks for, and no others, before the next PPS",
        Rule::NewData =>
            "T.30, A.3: a frame has the same data when it is sent again, since the answerer may have kept what came first",
        Rule::RcpCount =>
            "T.30, A.3: three RCPs follow the frames of a burst, so that its end is known if one or two are lost",
        Rule::Uncounted =>
            "T.30, A.4.3: the last octet of PPS counts the frames of the block, which were all sent before it",
        Rule::WrongCount =>
            "T.30, A.4.3: the last octet of PPS counts the frames of the block; some callers count those of the last burst",
        Rule::NotRepeated =>
            "T.30, A.4.3: a PPS said again has the same end, page and block, and the same last frame if none was sent since",
        Rule::WrongCounts =>
            "T.30, A.4.3: pages and blocks count from 0; after NULL the block is one more, otherwise the page is, with block 0",
        Rule::NotWhole | Rule::NotCome =>
            "T.30, A.4.4: a frame is told as come that was never sent, or not since a PPR asked for it",
        Rule::AsksAgain =>
            "T.30, A.4.4: a bit of 1 in PPR says that a frame hasn't come; by a PPR or an MCF before it had",
        Rule::AsksNothing =>
            "T.30, A.4.4: a block of which no frame is missing is confirmed by MCF",
        Rule::BadMap =>
            "T.30, A.4.4: PPR has 256 bits, and those after the last frame of the block are 1",
        Rule::NotBusy =>
            "T.30, A.4: RR asks an answerer that has said RNR whether it is ready; without an RNR the caller repeats its PPS",
    }
}
