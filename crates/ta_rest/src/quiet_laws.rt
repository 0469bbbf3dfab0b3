//! What quiet rest says of rest. The functions do nothing: their contracts state the laws.
#![tactic(auto)]

ghost use Rattle.ta_rest.specs.QuietLaws.{EndingsQuietRestAlike, LoudTermsAreLeft, QuietAlone, QuietRestIsStuck, QuietRestIsWeaker, QuietSafeIsStronger, RestIsQuietRest, RestSafeIsQuietRestSafe};

/// A run comes to quiet rest for a pattern exactly where it does for the pattern's ending.
pub fn endings_quiet_rest_alike()
    ensures { EndingsQuietRestAlike }
{}

/// At quiet rest each rule between two locations has a reason not to move: nobody is at its source, or
/// one of its guards fails without its silent places.
pub fn quiet_rest_is_stuck()
    ensures { QuietRestIsStuck }
{}

/// With no silent places, quiet rest is rest.
pub fn quiet_rest_without_names()
    ensures each { RestIsQuietRest }
    ensures safe { RestSafeIsQuietRestSafe }
{}

/// Where no guard subtracts a silent place, what is at rest is at quiet rest. The other way round it
/// isn't so.
pub fn quiet_rest_is_weaker()
    ensures each { QuietRestIsWeaker }
    ensures safe { QuietSafeIsStronger }
    ensures some { QuietAlone }
{}

/// A row without its terms of silent places has the value that the row has where silent places are 0.
pub fn loud_terms_are_left()
    ensures { LoudTermsAreLeft }
{}
