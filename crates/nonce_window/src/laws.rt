// What holds of all lists of entries.
ghost use Rattle.nonce_window.specs.Laws.{ForgottenStaysOutside, ForgettingChangesNoVerdict, UnsignedIsHeld, LiveIsBounded, KeptIsBounded, HoldsAlike, KnowsUsed};

/// A nonce that stands in the list and isn't live at a moment has a timestamp that is outside then and at every later moment.
pub fn forgotten_stays_outside()
    ensures { ForgottenStaysOutside }
{}

/// Whoever keeps at least the entries that are live at a moment gives the verdicts of the whole list, then and later.
pub fn forgetting_changes_no_verdict()
    ensures { ForgettingChangesNoVerdict }
{}

/// A window that holds a list holds it with one more entry that has no nonce, too.
pub fn unsigned_is_held()
    ensures { UnsignedIsHeld }
{}

/// Where nothing is loaded after the first nonce was admitted, a key never has more live nonces than the limit, or than the
/// loaded entries alone give it.
pub fn live_is_bounded()
    ensures { LiveIsBounded }
{}

/// So `NonceWindow::kept` never passes the greater of the limit and what the loaded entries alone have live.
pub fn kept_is_bounded()
    ensures { KeptIsBounded }
{}

/// A window at the greatest moment or later holds each list of one summary, or none.
pub fn holds_alike()
    ensures { HoldsAlike }
{}

/// A window knows the nonces of all keys that aren't forgotten, now and later, of each list that it holds.
pub fn knows_used()
    ensures { KnowsUsed }
{}
