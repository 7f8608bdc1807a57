//! Cutting a text where a part of it ends.
ghost use Rattle.std.specs.Prelude.{◌≡◌, ◌<◌, true};
ghost use Rattle.std.specs.List.{list_all};
ghost use Rattle.std.specs.Prelude.{nat_lt};
ghost use Rattle.env_directives.specs.reading.Cuts.{pieces_at, Pieces};

/// A text in pieces: what stands before the byte that it is cut at, that byte if there is one, and what stands behind it.
#[derive(Clone, Copy)]
pub struct Pieces<'t> {
    pub front: &'t str,
    pub stop: Option<u8>,
    pub rest: &'t str,
}

/// Cuts a text at its first byte that is one of the stops, which are ASCII.
#[tactic(auto, using(crate::proofs::cuts::CutsLemmas::cut_step, crate::proofs::cuts::CutsLemmas::cut_found))]
pub fn cut<'t>(text: &'t str, stops: &[u8]) -> Pieces<'t>
    requires { list_all (λ s. nat_lt s 128) stops.now ≡ true }
    ensures front { result.front.now ≡ (pieces_at stops.now text.now).front }
    ensures stop { result.stop ≡ (pieces_at stops.now text.now).stop }
    ensures rest { result.rest.now ≡ (pieces_at stops.now text.now).rest }
{
    for (at, byte) in text.as_bytes().iter().enumerate() {
        if stops.contains(byte) {
            return Pieces {
                front: &text[..at],
                stop: Some(*byte),
                rest: &text[at + 1..],
            };
        }
    }
    Pieces {
        front: text,
        stop: None,
        rest: "",
    }
}
