//! Laws of the events. A function that does nothing states its law in its contract.
ghost use Rattle.pcs_receive.specs.Laws.{EventsGrow, EventsGoByHunts, BadBitsDoNotCount, BadPairsCloseFrames, PairsHaveAllColumns};
ghost use Rattle.pcs_receive.specs.Told.{CallsTell, CallsLendAlignment, CallsLendCapture};
ghost use Rattle.pcs_receive.specs.Headline.{TrueLockAligns, AlignmentIsTold, WordsTellWrongSymbols, ReportsTellWrongSymbols, Headline, HeadlineOfItems, AnyDamage, AnyDamageOverall, BadPairsAreErrors};

/// What is told of a capture's first beats stands whatever beats follow.
pub fn events_grow()
    ensures { EventsGrow }
{}

/// The events from a place on, by what the hunt from there comes to: nothing, a failure with what comes
/// behind it, or an alignment with its pairs and what comes behind its loss.
pub fn events_go_by_hunts()
    ensures { EventsGoByHunts }
{}

/// No unmarked column depends on the bits that stand for a bad pair.
pub fn bad_bits_do_not_count()
    ensures { BadBitsDoNotCount }
{}

/// No frame is open behind a bad pair.
pub fn bad_pairs_close_frames()
    ensures { BadPairsCloseFrames }
{}

/// A pair has 128 columns where it begins with a group, and else 160.
pub fn pairs_have_all_columns()
    ensures { PairsHaveAllColumns }
{}

/// An image with true lock is aligned, its lanes stand at one group, and the alignment is told. Its
/// words differ from the codewords that were sent in the symbols that arrived wrong, and its reports
/// tell how many these are, where they are no more than are corrected.
pub fn true_lock_aligns()
    ensures aligns { TrueLockAligns }
    ensures told { AlignmentIsTold }
    ensures words { WordsTellWrongSymbols }
    ensures reports { ReportsTellWrongSymbols }
{}

/// Of an image without wrong symbols exactly the frames that are named are given.
pub fn headline_without_wrong_symbols()
    ensures columns { Headline 0 }
    ensures frames { HeadlineOfItems 0 }
{}

/// Of an image with at most fifteen wrong symbols in a codeword exactly the frames that are named
/// are given.
pub fn headline()
    ensures columns { Headline 15 }
    ensures frames { HeadlineOfItems 15 }
{}

/// Whatever the damage, exactly the frames in unmarked wides are given.
pub fn any_damage()
    ensures alignment { AnyDamage }
    ensures capture { AnyDamageOverall }
    ensures errors { BadPairsAreErrors }
{}

/// The calls of a receiver of frames that takes the beats of a capture, each by `take`, with `next` until it answers none, and `frame`
/// for each frame: `next` answers all events of the capture, and `frame` lends exactly its frames. So, whatever the damage, exactly
/// the frames in unmarked wides are lent.
pub fn calls_lend_frames()
    ensures told { CallsTell }
    ensures alignment { CallsLendAlignment }
    ensures capture { CallsLendCapture }
{}
