//! The run of a cache.
ghost use Rattle.std.specs.Prelude.{◌≡◌, ◌+◌, ◌*◌, ◌<◌, ◌≤◌, ◌^◌, ◌++◌, ◌∷◌, None, nat_eq, length, IfOk, OnOk};
ghost use Rattle.std.specs.Map.{lookup_entry};
ghost use Rattle.comp_graph.specs.Games.{IsGame, game_of};
ghost use Rattle.pebble_rules.specs.Rules.{start, IsComplete, cost};
ghost use Rattle.pebble_rules.specs.Transfers.{loads, stores};
ghost use Rattle.cache_model.specs.Caches.{empty_cache, eviction, with_room, placed, touched, with_turn, with_turns, turns_of, is_dirty, with_outputs_stored};
ghost use Rattle.cache_model.specs.CacheRuns.{IsCacheRun};
ghost use Rattle.cache_model.specs.Steps.{cache_of, AreBelow};

use comp_graph::{Game, NoMemory};
use lru::LruCache;
use pebble_rules::Move;
use std::alloc::Global;
use std::num::NonZeroUsize;

/// What a cache does in a game: how many loads and stores it makes, how many touches of predecessors are hits, and its moves.
#[derive(Drop)]
pub struct CacheRun {
    /// How many words are brought in.
    pub loads: u32,
    /// How many words are written back.
    pub stores: u32,
    /// How many touches of a predecessor find it in the cache.
    pub hits: u32,
    /// What the cache does, as moves of the game, one after another.
    pub moves: Vec<Move>,
}

/// The run of a write-back cache with as many lines as the game has slots. The live vertices that are no inputs are taken in rising number:
/// the predecessors of each are touched in rising number, and it is computed. A vertex that is touched or computed is the most recently
/// used; one that is not in the cache is loaded when it is touched. Before a load and before a computation the least recently used vertex is
/// evicted where the cache is full: it is stored where slow memory lacks it, and then its red pebble is removed. At the end the outputs that
/// slow memory lacks are stored. The loads and stores together have 32 bits. `NoMemory` may come at any allocation.
pub fn cached(alloc: Global, game: &Game) -> Result<CacheRun, NoMemory>
    ensures exact { IfOk result (λ run. IsCacheRun (game_of game.now) run) }
    ensures complete { IfOk result (λ run. IsComplete (game_of game.now) (start (game_of game.now)) run.moves.items) }
    ensures cost { IfOk result (λ run. cost (game_of game.now) run.moves.items ≡ game.now.weights.load * run.loads + game.now.weights.store * run.stores) }
    ensures few { IfOk result (λ run. run.loads + run.stores < 2 ^ 32) }
{
    let mut caching = all_turns(alloc, game)?;
    caching.store_outputs(game)?;
    let Caching { hits, moves, .. } = caching;
    Ok(CacheRun {
        loads: loads(&moves),
        stores: stores(&moves),
        hits,
        moves,
    })
}

// The number of loads.
fn loads(moves: &[Move]) -> u32
    requires { length moves.now < 2 ^ 32 }
    ensures { result ≡ loads moves.now }
{
    moves
        .iter()
        .filter(|mv| matches!(mv, Move::Load(_)))
        .count() as u32
}

// The number of stores.
fn stores(moves: &[Move]) -> u32
    requires { length moves.now < 2 ^ 32 }
    ensures { result ≡ stores moves.now }
{
    moves
        .iter()
        .filter(|mv| matches!(mv, Move::Store(_)))
        .count() as u32
}

// A cache of vertices, each with a mark that slow memory lacks it, and what it did.
#[derive(Drop)]
struct Caching {
    lines: LruCache<u16, bool>,
    hits: u32,
    moves: Vec<Move>,
}

// The cache after the turns of all vertices.
fn all_turns(alloc: Global, game: &Game) -> Result<Caching, NoMemory>
    ensures valid { IsGame game.now }
    ensures cache { IfOk result (λ caching. cache_of caching ≡ with_turns (game_of game.now) empty_cache (turns_of (game_of game.now))) }
{
    let graph = game.graph();
    let taken = graph.live().minus(&graph.in_set());
    let slots = NonZeroUsize::new(game.slots() as usize).unwrap();
    let mut caching = Caching {
        lines: LruCache::new(alloc, slots)?,
        hits: 0,
        moves: Vec::new(alloc),
    };
    for v in 0..graph.len() {
        if taken.has(v) {
            caching.turn(game, v)?;
        }
    }
    Ok(caching)
}

impl Caching {
    // Touches the predecessors of a vertex in rising number, and computes it.
    fn turn(&mut self, game: &Game, v: u16) -> Result<(), NoMemory>
        requires vertex { v < length game.now.graph.nodes }
        requires slots { self.old.lines.cap ≡ game.now.slots }
        requires below { AreBelow v self.old.lines.entries }
        requires few { self.old.hits ≤ 256 * v }
        ensures slots { OnOk result (self.new.lines.cap ≡ self.old.lines.cap) }
        ensures cache { OnOk result (cache_of self.new ≡ with_turn (game_of game.now) (cache_of self.old) v) }
    {
        let preds = game.graph().preds(v);
        for u in 0..v {
            if preds.has(u) {
                self.touch(u)?;
            }
        }
        self.place(v, true, Move::Compute(v))
    }

    // Touches a vertex: one that is there goes first, and another is loaded.
    fn touch(&mut self, u: u16) -> Result<(), NoMemory>
        requires { self.old.hits < 100000 }
        ensures slots { OnOk result (self.new.lines.cap ≡ self.old.lines.cap) }
        ensures cache { OnOk result (cache_of self.new ≡ touched self.old.lines.cap (cache_of self.old) u) }
    {
        if self.lines.promote(&u) {
            self.hits += 1;
            return Ok(());
        }
        self.place(u, false, Move::Load(u))
    }

    // Puts a vertex that is not there first, by a move that makes it red. Where the cache is full, the last one is evicted before.
    fn place(&mut self, v: u16, dirty: bool, mv: Move) -> Result<(), NoMemory>
        requires { lookup_entry (nat_eq v) self.old.lines.entries ≡ None }
        ensures slots { OnOk result (self.new.lines.cap ≡ self.old.lines.cap) }
        ensures cache { OnOk result (cache_of self.new ≡ placed (with_room self.old.lines.cap (cache_of self.old)) (v, dirty) mv) }
    {
        if let Some((last, is_dirty)) = self.lines.push(v, dirty)? {
            self.evict(last, is_dirty)?;
        }
        self.moves.push(mv)?;
        Ok(())
    }

    // Stores a vertex that has left the cache, if it is dirty, and removes its red pebble.
    fn evict(&mut self, v: u16, dirty: bool) -> Result<(), NoMemory>
        ensures lines { OnOk result (self.new.lines ≡ self.old.lines) }
        ensures hits { OnOk result (self.new.hits ≡ self.old.hits) }
        ensures moves { OnOk result (self.new.moves.items ≡ self.old.moves.items ++ eviction (v, dirty)) }
    {
        if dirty {
            self.moves.push(Move::Store(v))?;
        }
        self.moves.push(Move::DropRed(v))?;
        Ok(())
    }

    // Stores the outputs that are dirty, in rising number.
    fn store_outputs(&mut self, game: &Game) -> Result<(), NoMemory>
        ensures { OnOk result (cache_of self.new ≡ with_outputs_stored (game_of game.now) (cache_of self.old)) }
    {
        let graph = game.graph();
        let outputs = graph.out_set();
        for v in 0..graph.len() {
            if outputs.has(v) && self.is_dirty(v) {
                self.moves.push(Move::Store(v))?;
            }
        }
        Ok(())
    }

    // Whether a vertex is there and dirty.
    fn is_dirty(&self, v: u16) -> bool
        ensures { result ≡ is_dirty self.now.lines.entries v }
    {
        self.lines.peek(&v).copied().unwrap_or(false)
    }
}
