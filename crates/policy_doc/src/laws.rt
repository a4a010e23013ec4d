//! Laws of policies. Each stands as the contract of a function that does nothing.

ghost use Rattle.policy_doc.specs.Grammar.{PolicyOfReads};
ghost use Rattle.policy_doc.specs.Pointers.{FirstFaultHasPlace};
ghost use Rattle.policy_doc.specs.ByteOrder.{FirstInByteOrder};
ghost use Rattle.policy_doc.specs.Places.{FirstFaultIsAtTheFirstPlace, PlacesStandInTheValue};

/// A JSON value is a policy's exactly where it has no first fault, and then its statements are
/// determined.
pub fn policy_of_reads()
    ensures { PolicyOfReads }
{}

/// The first fault of a JSON value is `BadShape` or `Unsupported`, and its JSON pointer leads, by
/// RFC 6901 from the root of the value, to a value that stands there. Or else the fault is
/// `BadShape`, and the pointer without its last reference token leads to an object that has no member
/// of that token's name.
pub fn first_fault_has_place()
    ensures { FirstFaultHasPlace }
{}

/// Where the members of an object stand in byte order of their names and are judged one after the
/// other, the first fault is that of a member before which no member has a fault.
pub fn first_fault_in_byte_order()
    ensures { FirstInByteOrder }
{}

/// A JSON value has a first fault exactly where one of its places, in the order in which they are
/// judged, isn't as is asked of it: the fault is that of the first such place. It has none exactly
/// where each place is right.
pub fn first_fault_is_at_the_first_place()
    ensures { FirstFaultIsAtTheFirstPlace }
{}

/// What each place is judged by stands at its JSON pointer (RFC 6901), from the root of the value; or
/// nothing stands there, in an object that lacks a member of that name. So a value is refused because
/// of what stands, or lacks, where its first fault points.
pub fn places_stand_in_the_value()
    ensures { PlacesStandInTheValue }
{}
