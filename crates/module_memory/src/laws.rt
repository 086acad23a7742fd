//! Laws of a rack's memories and of the machine that moves their words. They make no call.

ghost use Rattle.module_memory.specs.Laws.{BaysAreWide, BaysHoldTheCounts, BaysStayLent};
ghost use Rattle.module_memory.specs.Laws.{BaysStayWhole, LentBlockIsGone, LentBlockIsItsBay};
ghost use Rattle.module_memory.specs.Laws.{OtherBlockIsTheRest, SetIsOneWord, SettingsHaveBays};
ghost use Rattle.module_memory.specs.Laws.{SourcesAreFound, EachPrefix, EndIsPlaced};
ghost use Rattle.module_memory.specs.Laws.{ImagesAreWhole, OneEnd, OneImaged, OneMoved, OnePlaced};
ghost use Rattle.module_memory.specs.Laws.{OneMarked, WordsAreInImages};

/// Where a batch doesn't overlap, the order in which the words of a setting move doesn't matter. A
/// source that the batch writes is found in an opening store, and any other in the store as it is;
/// as the setting begins, these two agree on the sources that the batch doesn't write.
pub fn any_order()
    ensures one_end { OneEnd }
    ensures placed { EndIsPlaced }
    ensures each_prefix { EachPrefix }
{}

/// An image has four bytes for each word of the shape, which tell that word, so it is the image of
/// one store.
pub fn images()
    ensures whole { ImagesAreWhole }
    ensures words { WordsAreInImages }
    ensures one { OneImaged }
{}

/// A rack of which blocks are lent has the words of the bays and of the rest.
pub fn bays()
    ensures lent { LentBlockIsItsBay }
    ensures gone { LentBlockIsGone }
    ensures rest { OtherBlockIsTheRest }
    ensures set { SetIsOneWord }
    ensures stay_whole { BaysStayWhole }
{}

/// Parted at the destinations of settings, a rack has a bay for each transfer. What workers leave
/// in the bays of a setting is the store of their counts.
pub fn setting_bays()
    ensures parted { SettingsHaveBays }
    ensures found { SourcesAreFound }
    ensures wide { BaysAreWide }
    ensures counts { BaysHoldTheCounts }
    ensures stay_lent { BaysStayLent }
{}

/// There is one marked rack of a shape, one store in which the blocks of transfers are placed, and
/// one in which given counts of their words have moved.
pub fn placed()
    ensures one_marked { OneMarked }
    ensures one_placed { OnePlaced }
    ensures one_moved { OneMoved }
{}
