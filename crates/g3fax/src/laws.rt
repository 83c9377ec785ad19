//! Laws of the definitions. Nothing runs.

ghost use Rattle.g3fax.specs.NumberRows.{CarriersByOrder, EndsByOrder, FoundsByOrder, StatusesByOrder, WaitsByOrder};
ghost use Rattle.g3fax.specs.SignalsMeant.{MeansWhatIsTold};
ghost use Rattle.g3fax.specs.Texts.{TextsAreRead};

/// The numbers and octets told of a signal that can be written give the same signal again, whatever octets follow. So a signal that was
/// read is written unchanged, and the other way round.
pub fn means_what_is_told()
    ensures { MeansWhatIsTold }
{}

/// The numbers of statuses, ends, carriers, waits and of what octets are, in the order in which g3fax.h has them.
pub fn numbers_by_order()
    ensures statuses { StatusesByOrder }
    ensures ends { EndsByOrder }
    ensures carriers { CarriersByOrder }
    ensures waits { WaitsByOrder }
    ensures founds { FoundsByOrder }
{}

/// C reads each text as it stands in its table, where each number stands once.
pub fn texts_are_read()
    ensures { TextsAreRead }
{}
