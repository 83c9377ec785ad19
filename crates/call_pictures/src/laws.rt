//! Laws of the definitions. Nothing runs.

ghost use Rattle.call_pictures.specs.PictureRows.{AnswersByRows, FieldsByOctets, ShapesByOctets, WordsByOctets};

/// What a picture draws of events and of fields, by octets; and which frame of a capture is an answer.
pub fn pictures_by_octets()
    ensures shapes { ShapesByOctets }
    ensures words { WordsByOctets }
    ensures fields { FieldsByOctets }
    ensures answers { AnswersByRows }
{}
