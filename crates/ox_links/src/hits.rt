//! A law of what is counted.

ghost use Rattle.std.specs.Prelude.{◌<◌, ◌≤◌, ◌++◌, ◌∷◌, [], List};
ghost use Rattle.ox_links.specs.Counted.{hits_in, requests_in};
ghost use Rattle.ox_links.specs.Earlier.{HasEarlier};
ghost use Rattle.ox_links.specs.Link.{Answer};

/// An answer is a hit only where it is to a GET, and one before it is to a GET of the same path
/// with as many accepted commands before it. There are at most as many hits as requests.
pub fn hits_have_an_earlier_answer<C>()
    ensures earlier { (before : List (Answer C)) (answer : Answer C)
        → hits_in before < hits_in (before ++ answer ∷ []) → HasEarlier before answer }
    ensures most { (answers : List (Answer C)) → hits_in answers ≤ requests_in answers }
{}
