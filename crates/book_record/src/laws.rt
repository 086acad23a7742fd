//! Laws of the text of a history, and of records that may have been cut off. They make no call.

ghost use Rattle.book_record.specs.FrontLaws.{EachFrontIsRead, EndIsNoEntry, SeesBytes};

/// Each front of the text of entries is that of whole entries and a torn rest, which is a front of
/// the next entry. A front of the last lines of a record is such a rest too, and these lines are no
/// entry's.
pub fn fronts()
    ensures each { EachFrontIsRead }
    ensures end { EndIsNoEntry }
{}

/// Where one byte of an entry's lines is another, or their number below 2^32, their sum is another.
pub fn sums()
    ensures { SeesBytes }
{}
