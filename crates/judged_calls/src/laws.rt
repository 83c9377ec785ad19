//! The laws: of each rule that it keeps, that no call of the two stations breaks it. Nothing runs.

ghost use Rattle.judged_calls.specs.AnyCaller.{AnswerersAreNotFirst, AnswerersKeepAlways, AreSaidFairly};
ghost use Rattle.judged_calls.specs.SaidCalls.{NoRuleIsBroken, RuleIsKept, RuleIsKeptOfPages, RuleIsKeptWithMemory};
ghost use Rattle.referee.specs.declared.rule.Rule.TheVariants.{
  AsksAgain,
  AsksNothing,
  BadLength,
  BadMap,
  Ended,
  NewData,
  NoBurst,
  NoCommand,
  NotAskedFor,
  NotBusy,
  NotCome,
  NotOffered,
  NotRepeated,
  NotSentAgain,
  NotTrained,
  NotWhole,
  OutOfOrder,
  RcpCount,
  Uncounted,
  WrongCount,
  WrongCounts,
  WrongSide,
};

/// Over every schedule of losses, spoiled training checks, time-outs and refused growths, each station says its own signals alone.
pub fn own_signals()
    ensures { RuleIsKept WrongSide }
{}

/// Over every such schedule a station that has said DCN says nothing more.
pub fn silent_after_dcn()
    ensures { RuleIsKept Ended }
{
    stations::laws::always_answered();
}

/// Over every such schedule a PPR asks for a frame of its block, and its bits for numbers beyond the block are 1.
pub fn pprs_ask()
    ensures something { RuleIsKeptOfPages AsksNothing }
    ensures beyond { RuleIsKeptOfPages BadMap }
{
    line_sim::laws::headline();
}

/// Over every such schedule a PPR tells no frame as come that wasn't sent since it was known to be missing.
pub fn frames_come()
    ensures { RuleIsKeptOfPages NotCome }
{
    line_sim::laws::headline();
}

/// Over every such schedule CFR and FTT answer a DCS, the caller's last command, and MCF, PPR and RNR a PPS or an RR.
pub fn answers_have_commands()
    ensures training { RuleIsKeptOfPages NotTrained }
    ensures blocks { RuleIsKeptOfPages NoCommand }
{
    line_sim::laws::headline();
}

/// Over every such schedule the caller says RR only if the answerer has said RNR, and no PPS or CFR came since.
pub fn busy_are_asked()
    ensures { RuleIsKeptOfPages NotBusy }
{
    line_sim::laws::headline();
}

/// Over every such schedule a burst begins only once CFR, PPR or MCF lets it, and the numbers of its frames rise.
pub fn bursts_are_let()
    ensures begin { RuleIsKeptOfPages NoBurst }
    ensures order { RuleIsKeptOfPages OutOfOrder }
{
    stations::laws::always_answered();
    line_sim::laws::headline();
}

/// Over every such schedule a frame that is sent again in its block has the same data.
pub fn data_stay()
    ensures { RuleIsKept NewData }
{}

/// Over every such schedule a frame has 1 to 256 octets of data, or 64 if the last DCS says that frames are small.
pub fn frames_have_lengths()
    ensures { RuleIsKeptOfPages BadLength }
{
    line_sim::laws::headline();
}

/// Over every such schedule a DCS asks for what a DIS of the call offers.
pub fn offers_are_met()
    ensures { RuleIsKept NotOffered }
{
    stations::laws::signals_hold();
    stations::laws::answerers_keep();
    signals::laws::lowered_is_allowed();
}

/// Over every such schedule an MCF comes only if each frame of its block was sent, and sent again since a PPR asked for it.
pub fn mcfs_are_whole()
    ensures { RuleIsKeptOfPages NotWhole }
{
    stations::laws::answerers_keep();
    line_sim::laws::headline();
}

/// Over every such schedule a burst that answers a PPR has no frame for which the PPR doesn't ask.
pub fn frames_are_asked_for()
    ensures { RuleIsKeptOfPages NotAskedFor }
{
    line_sim::laws::headline();
}

/// Over every such schedule in which no growth is refused, a PPS counts the frames of its block that were sent, all of them and no others,
/// and says the same of a block each time.
pub fn blocks_are_counted()
    ensures unsent { RuleIsKeptWithMemory Uncounted }
    ensures all { RuleIsKeptWithMemory WrongCount }
    ensures again { RuleIsKeptWithMemory NotRepeated }
{
    stations::laws::answerers_keep();
    line_sim::laws::headline();
}

/// Over every such schedule in which no growth is refused, a burst has each frame that its PPR asks for, and three RCPs end it.
pub fn bursts_are_whole()
    ensures frames { RuleIsKeptWithMemory NotSentAgain }
    ensures rcps { RuleIsKeptWithMemory RcpCount }
{
    line_sim::laws::headline();
}

/// Over every such schedule in which no growth is refused, a PPR asks for no frame that the answerer has told as come.
pub fn frames_stay_told()
    ensures { RuleIsKeptWithMemory AsksAgain }
{
    stations::laws::answerers_keep();
    line_sim::laws::headline();
}

/// Over every such schedule in which no growth is refused, the counts of page and block in a PPS come after those of the block before.
pub fn counts_go_on()
    ensures { RuleIsKeptWithMemory WrongCounts }
{
    stations::laws::answerers_keep();
    stations::laws::marks();
    line_sim::laws::headline();
}

/// No frame that the two stations say breaks any of the 22 rules, whatever is lost or spoiled, where no growth is refused.
pub fn no_rule_is_broken()
    ensures { NoRuleIsBroken }
{
    own_signals();
    silent_after_dcn();
    offers_are_met();
    answers_have_commands();
    bursts_are_let();
    frames_have_lengths();
    frames_are_asked_for();
    data_stay();
    bursts_are_whole();
    blocks_are_counted();
    counts_go_on();
    mcfs_are_whole();
    frames_come();
    frames_stay_told();
    pprs_ask();
    busy_are_asked();
}

/// Whoever calls an answerer that follows its table, and whatever of a call is lost: the answerer is never the first to break a rule.
pub fn never_first()
    ensures law { AnswerersAreNotFirst }
    ensures callers { AreSaidFairly }
{}

/// Whatever the caller of an answerer says, which may break any rule: the answerer says its own signals alone, nothing after DCN, and no
/// answer without its command.
pub fn answers_any_caller()
    ensures side { AnswerersKeepAlways WrongSide }
    ensures ended { AnswerersKeepAlways Ended }
    ensures training { AnswerersKeepAlways NotTrained }
    ensures blocks { AnswerersKeepAlways NoCommand }
{
    stations::laws::always_answered();
}
