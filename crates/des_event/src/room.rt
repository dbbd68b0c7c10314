//! Room that lists keep.
ghost use Rattle.std.specs.Prelude.{◌≡◌};

/// For how many items more a list that is being emptied may always have room.
const SPARE: usize = 4096;

/// Frees the memory that a list does not need, if it is more than an eighth of what it needs. Otherwise
/// a long list that is being emptied would have all its memory until its last item is taken, beside
/// the places to which its items go.
pub fn free_spare<T>(items: &mut Vec<T>)
    ensures { items.new.items ≡ items.old.items }
{
    if items.capacity() - items.len() > SPARE + items.len() / 8 {
        items.shrink_to_fit();
    }
}
