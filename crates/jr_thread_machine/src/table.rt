//! Lists of the code, by number.

ghost use Rattle.std.specs.Prelude.{◌≡◌, MatchOption, Some, None, slice_get};

use jr_base::Reserved;

/// The item at a place, if there is one.
pub(crate) fn item_at<T>(items: &Reserved<T>, place: u32) -> Option<&T>
    ensures { MatchOption result (slice_get items.now.items place ≡ None) (λ item. slice_get items.now.items place ≡ Some item.now) }
{
    if place >= items.len() {
        return None;
    }
    Some(items.get(place))
}
