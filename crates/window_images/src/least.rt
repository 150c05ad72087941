//! The image under which a position is looked up.
ghost use Rattle.std.specs.Prelude.{◌≡◌, ◌⊎◌};
ghost use Rattle.std.specs.Ordering.{nat_cmp, is_gt};
ghost use Rattle.std.specs.Cmp.Lexicographic.{slice_cmp};
ghost use Rattle.comp_graph.specs.Words.{words_of};
ghost use Rattle.window_laws.specs.Images.{IsImageOf, IsTurnedTo};
ghost use Rattle.window_images.specs.Permutations.{renaming, renamings, position_image};
ghost use Rattle.window_images.specs.LeastImages.{lesser, least_of, least_image};

use crate::permutation::Permutation;
use comp_graph::VertexSet;
use pebble_rules::Position;

/// The image under which a position is looked up. Each of at most 256 rounds goes to the least image under the permutations, and if no
/// image is less than the position, that is the end. Positions are compared by [`Position::order`]. It takes no memory.
pub fn least_image(permutations: &[Permutation], position: &Position) -> Position
    ensures exact { result ≡ least_image (renamings permutations.now) position.now }
    ensures turned { IsTurnedTo (renamings permutations.now) position.now result }
{
    let mut reached = *position;
    for _round in 0..256u16 {
        let least = least_of(permutations, &reached);
        if !least.order(&reached).is_lt() {
            return reached;
        }
        reached = least;
    }
    reached
}

// The least of a position and its images.
fn least_of(permutations: &[Permutation], position: &Position) -> Position
    ensures value { result ≡ least_of (renamings permutations.now) position.now }
    ensures turned { IsTurnedTo (renamings permutations.now) position.now result }
{
    let mut best = *position;
    for permutation in permutations {
        best = lesser_image(permutation, position, &best);
    }
    best
}

// The image of a position if it comes before another position, and else that one. The image of the blue vertices is made only if that
// of the red ones does not come after the other red ones.
fn lesser_image(permutation: &Permutation, position: &Position, best: &Position) -> Position
    ensures value { result ≡ lesser best.now (position_image (renaming permutation.now) position.now) }
    ensures either { (result ≡ best.now) ⊎ IsImageOf (renaming permutation.now) position.now result }
{
    let red = permutation.image(&position.red);
    if comes_after(&red, &best.red) {
        return *best;
    }
    let image = Position {
        red,
        blue: permutation.image(&position.blue),
    };
    if image.order(best).is_lt() {
        image
    } else {
        *best
    }
}

// Whether the words of a set come after those of another, from word 0 on.
fn comes_after(first: &VertexSet, second: &VertexSet) -> bool
    ensures { result ≡ is_gt (slice_cmp nat_cmp (words_of first.now) (words_of second.now)) }
{
    let words = [first.word(0), first.word(1), first.word(2), first.word(3)];
    let others = [
        second.word(0),
        second.word(1),
        second.word(2),
        second.word(3),
    ];
    words.cmp(&others).is_gt()
}
