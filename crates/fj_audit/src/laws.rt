//! Theorems on certificates handed on, over the definitions alone. A function of this module does nothing: its clause is the
//! theorem, and the check proves it.

ghost use Rattle.fj_audit.specs.HandingLaws.{AsGoodAfterAsGood, FrontsAreAsGood, KeptRemain, NothingIsShown, ShownAreAsGood, ShownOneAfterTheOther};

/// Auditors that are shown nothing are as before.
pub fn nothing_is_shown()
    ensures { NothingIsShown }
{}

/// Auditors that are shown one list of certificates and then another are shown both.
pub fn shown_one_after_the_other()
    ensures { ShownOneAfterTheOther }
{}

/// Auditors that are shown certificates that hold keep their titles and find none of them bad.
pub fn shown_are_as_good()
    ensures { ShownAreAsGood }
{}

/// So do those for which memory was wanting.
pub fn fronts_are_as_good()
    ensures { FrontsAreAsGood }
{}

/// Being as good as before goes from each time to a later one.
pub fn as_good_after_as_good()
    ensures { AsGoodAfterAsGood }
{}

/// The auditors that are kept where the others are dropped remain.
pub fn kept_remain()
    ensures { KeptRemain }
{}
