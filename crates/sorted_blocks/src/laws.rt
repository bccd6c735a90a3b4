//! What a put and a drop leave, in other words.
ghost use Rattle.std.specs.Prelude.{◌≡◌, true, ◌||◌, ◌&&◌, not, List};
ghost use Rattle.std.specs.Ordering.{is_eq};
ghost use Rattle.sorted_blocks.specs.declared.key.Key.{Key};
ghost use Rattle.sorted_blocks.specs.Keys.{key_order, has_key, with_key, without_key, Rises};

/// A key that is put is there with those that were there, and changes nothing where it was there.
pub fn law_put()
    ensures rising { (key : Key) (keys : List Key) → Rises keys → Rises (with_key key keys) }
    ensures there { (key other : Key) (keys : List Key) → has_key other (with_key key keys) ≡ (is_eq (key_order other key) || has_key other keys) }
    ensures again { (key : Key) (keys : List Key) → Rises keys → has_key key keys ≡ true → with_key key keys ≡ keys }
{}

/// A key that is dropped is not there, and the others stay.
pub fn law_drop()
    ensures rising { (key : Key) (keys : List Key) → Rises keys → Rises (without_key key keys) }
    ensures there { (key other : Key) (keys : List Key) → has_key other (without_key key keys) ≡ (not (is_eq (key_order other key)) && has_key other keys) }
{}
