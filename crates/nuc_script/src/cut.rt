ghost use Rattle.std.specs.Prelude.{◌≡◌, ◌≢◌, ◌==◌, ◌<◌, ◌∷◌, ◌++◌, [], length, MatchOption, IfSome};
ghost use Rattle.std.specs.Option.{option_map_or};
ghost use Rattle.std.specs.List.{slice_split, before_first, after_first};

/// What stands before the first such byte, and what stands behind it, if there is one.
pub(crate) fn cut(text: &[u8], at: u8) -> (&[u8], Option<&[u8]>)
    ensures before { result.0.now ≡ before_first (λ b. b == at) text.now }
    ensures after { MatchOption result.1 (after_first (λ b. b == at) text.now ≡ []) (λ rest. rest.now ≡ after_first (λ b. b == at) text.now) }
    ensures shorter { IfSome result.1 (λ rest. length rest.now < length text.now) }
    ensures split { slice_split (λ b. b == at) text.now
        ≡ result.0.now ∷ option_map_or (λ rest. slice_split (λ b. b == at) rest.now) result.1 [] }
{
    for (i, byte) in text.iter().enumerate() {
        if *byte == at {
            let (before, rest) = text.split_at(i);
            let (_, behind) = rest.split_at(1);
            return (before, Some(behind));
        }
    }
    (text, None)
}
