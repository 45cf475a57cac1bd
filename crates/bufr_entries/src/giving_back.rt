//! Vectors that give back room as their last members go.
ghost use Rattle.std.specs.Prelude.{◌≡◌, ◌+◌, ◌++◌, MatchOption, length, vec_len};
ghost use Rattle.std.specs.Option.{option_to_list};

/// The number of free places that a vector gives back.
const FREE_PLACES: usize = 8_192;

/// Takes the last member, and gives back room if much is free.
pub fn take_last<T>(members: &mut Vec<T>) -> Option<T>
    ensures items { members.old.items ≡ members.new.items ++ option_to_list result }
    ensures len { vec_len members.new + length (option_to_list result) ≡ vec_len members.old }
    ensures cases { MatchOption result ((vec_len members.old ≡ 0) × (vec_len members.new ≡ 0))
        (λ _. vec_len members.new + 1 ≡ vec_len members.old) }
{
    if members.capacity().saturating_sub(members.len()) >= FREE_PLACES {
        members.shrink_to_fit();
    }
    members.pop()
}
