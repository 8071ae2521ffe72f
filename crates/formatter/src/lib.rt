// Laying out: `format` of mod.rs, from bytes to an answer and a filled space. Text, tape, width and case are four parameters, as the C interface has them,
// and each lent space is one, since some lie on the stack and some are the caller's.
#![tactic(auto)]

mod arms;
mod format;

ghost use Rattle.std.specs.Prelude.{◌≡◌, ◌++◌, ◌*◌, ◌≤◌, ◌<◌, drop, length, replicate, set, take};
ghost use Rattle.context.specs.Splice.{splice};
ghost use Rattle.layout.specs.Layout.{original};
ghost use Rattle.layout.specs.MapCall.{Mapped, mapped};
ghost use Rattle.layout.specs.Outcome.{Result, answer_of, config_of, laid_out, outcome};
ghost use Rattle.formatter.specs.Entry.{Fills, Holds, LaysOut, MapFills, MapFits, MapsOut, Notes, Placed, Ready, Trims, WalkedInto};

use context::{FormatConfig, FormatterContext, copy};
use format::node;
use layout::Refused;
use tape::check::check_call;
use tape::commands::head_at;
use tape::scan::skip;
use token_map::{clear, copy_front, place_tokens};
use tokens::Settings;

// Where a walk stands after a node: the place on the tape, and the context.
#[derive(Clone, Copy)]
pub(crate) struct Walk {
    pub at: usize,
    pub context: FormatterContext,
}

// A call whose input the check accepts, with what it notes of each node. That it does is no ghost field, since `Ready` has the tree of the tape, and
// a ghost field takes only what has one value; so the methods ask for it.
#[derive(Clone, Copy)]
struct Accepted<'a> {
    text: &'a [u8],
    tape: &'a [u8],
    config: FormatConfig,
    facts: &'a [u8],
}

// The k bytes that trimming leaves, from a space that a walk has written to, and the newline after them, which stands at k.
fn copy_layout(written: &[u8], out: &mut [u8], k: usize)
    requires { (k ≤ length written.now) × (k < length out.old) }
    ensures { out.new ≡ set (splice 0 (take k written.now) (take k out.old) ++ drop k out.old) k 10 }
{
    copy(&mut out[..k], &written[..k]);
    out[k] = 10;
}

impl Accepted<'_> {
    // The trimmed length of the layout. What is written for it goes into `space`, as far as that goes, and the places of tokens are noted in `map`.
    fn walk_tree(self, space: &mut [u8], map: &mut [u64]) -> usize
        requires { Ready self.text.now self.tape.now self.facts.now self.config }
        ensures { WalkedInto self.entry.text.now self.entry.tape.now self.entry.config space.old map.old result space.new map.new }
    {
        let root = head_at(self.tape, 0);
        let settings = Settings {
            config: self.config,
        };
        let w = node(
            self.text,
            &settings,
            self.tape,
            self.facts,
            space,
            map,
            63,
            0,
            root.kind,
            FormatterContext::new(),
        );
        let c = w.context;
        let p = c.position;
        p.trimmed
    }

    // The k bytes that trimming leaves, and the newline after them, by one more walk. What is known of k speaks of the tape's tree, as `Ready` does, and so
    // is no ghost field either.
    fn write_layout(self, out: &mut [u8], map: &mut [u64], k: usize)
        requires ready { Ready self.text.now self.tape.now self.facts.now self.config }
        requires trims { Trims self.text.now self.tape.now self.config k × (0 < k) × (k < length out.old) }
        ensures fills { Fills self.entry.text.now self.entry.tape.now self.entry.config out.old out.new }
        ensures notes { Notes self.entry.text.now self.entry.tape.now self.entry.config map.old map.new }
    {
        self.walk_tree(&mut out[..k], map);
        out[k] = 10;
    }

    // The layout once 13 is decided: from a space that a walk has written to, or by one more walk.
    fn put_layout(self, space: &[u8], out: &mut [u8], k: usize)
        requires ready { Ready self.text.now self.tape.now self.facts.now self.config }
        requires trims { Trims self.text.now self.tape.now self.config k × Holds self.text.now self.tape.now self.config k space.now × (0 < k) × (k < length out.old) }
        ensures { Fills self.entry.text.now self.entry.tape.now self.entry.config out.old out.new }
    {
        if k <= space.len() {
            copy_layout(space, out, k);
            return;
        }
        self.write_layout(out, &mut [], k);
    }

    // What fits into the lent space needs one walk, and a copy once 13 is decided.
    fn layout(self, space: &mut [u8], out: &mut [u8]) -> Result<usize, Refused>
        requires { Ready self.text.now self.tape.now self.facts.now self.config }
        ensures { LaysOut self.entry.text.now self.entry.tape.now self.entry.config out.old (answer_of result) out.new }
    {
        let k = self.walk_tree(space, &mut []);
        if k == 0 {
            return Ok(0);
        }
        if out.len() <= k {
            return Err(Refused::OutputSpace(k + 1));
        }
        self.put_layout(space, out, k);
        Ok(k + 1)
    }

    // The layout, and the places of its tokens in the map: from what a walk has written and noted, or by one more walk.
    fn put_noted(self, space: &[u8], notes: &[u64], out: &mut [u8], map: &mut [u64], k: usize)
        requires ready { Ready self.text.now self.tape.now self.facts.now self.config }
        requires trims { Trims self.text.now self.tape.now self.config k × Holds self.text.now self.tape.now self.config k space.now × (0 < k) × (k < length out.old) }
        requires map_fits { MapFits self.text.now self.tape.now (length map.old) × Notes self.text.now self.tape.now self.config (replicate (length notes.now) 0) notes.now }
        ensures { Fills self.entry.text.now self.entry.tape.now self.entry.config out.old out.new × Placed self.entry.text.now self.entry.tape.now self.entry.config map.new }
    {
        if map.len() <= notes.len() {
            self.put_layout(space, out, k);
            copy_front(map, notes);
            return;
        }
        clear(map);
        self.write_layout(out, map, k);
    }

    // The layout and the map, once 13 and 17 are decided: the places become lines and columns of the layout.
    fn put_map(self, space: &[u8], notes: &[u64], out: &mut [u8], map: &mut [u64], k: usize)
        requires ready { Ready self.text.now self.tape.now self.facts.now self.config }
        requires trims { Trims self.text.now self.tape.now self.config k × Holds self.text.now self.tape.now self.config k space.now × (0 < k) × (k < length out.old) }
        requires map_fits { MapFits self.text.now self.tape.now (length map.old) × Notes self.text.now self.tape.now self.config (replicate (length notes.now) 0) notes.now }
        ensures { Fills self.entry.text.now self.entry.tape.now self.entry.config out.old out.new × MapFills self.entry.text.now self.entry.tape.now self.entry.config map.new }
    {
        self.put_noted(space, notes, out, map, k);
        let end = k + 1;
        place_tokens(map, &out[..end], k);
    }

    // Nothing is written before 13 and 17 are decided. What fits into the lent space and notes needs one walk.
    fn layout_map(
        self,
        space: &mut [u8],
        notes: &mut [u64],
        out: &mut [u8],
        map: &mut [u64],
    ) -> Result<usize, Refused>
        requires { Ready self.text.now self.tape.now self.facts.now self.config × (notes.old ≡ replicate (length notes.old) 0) }
        ensures { MapsOut self.entry.text.now self.entry.tape.now self.entry.config out.old map.old (answer_of result) out.new map.new }
    {
        let k = self.walk_tree(space, notes);
        if 0 < k {
            if k >= out.len() {
                return Err(Refused::OutputSpace(k + 1));
            }
        }
        let root = skip(self.tape, 0);
        let count = 2 * root.tokens;
        if map.len() < count {
            return Err(Refused::MapSpace(count));
        }
        if k == 0 {
            clear(&mut map[..count]);
            return Ok(0);
        }
        self.put_map(space, notes, out, &mut map[..count], k);
        Ok(k + 1)
    }
}

fn config_of(width: u64, case: u64) -> FormatConfig
    ensures { result ≡ config_of width case }
{
    FormatConfig {
        indent_width: width as usize,
        uppercase_keywords: case == 1,
    }
}

// `facts` has room for what the check notes of each node, where 5 lets the tape pass. That hangs on the tape's length, so no type of `facts` says it. What
// is walked first goes into `space`.
fn layout_in(
    text: &[u8],
    tape: &[u8],
    width: u64,
    case: u64,
    facts: &mut [u8],
    space: &mut [u8],
    out: &mut [u8],
) -> Result<usize, Refused>
    requires { (length tape.now ≤ 262144 → length tape.now ≤ 11 * length facts.old) }
    ensures { ◌≡◌ {A = Result} (record { answer = answer_of result; space = out.new }) (laid_out (outcome original width case text.now tape.now) out.old) }
{
    check_call(width, case, text, tape, facts)?;
    let accepted = Accepted {
        text,
        tape,
        config: config_of(width, case),
        facts,
    };
    accepted.layout(space, out)
}

// With arrays of its own on the stack for these, since there is no heap; they are filled with zeros at each call.
fn layout_sized<const FACTS: usize, const SPACE: usize>(
    text: &[u8],
    tape: &[u8],
    width: u64,
    case: u64,
    out: &mut [u8],
) -> Result<usize, Refused>
    requires small { (FACTS ≤ 23832) × (SPACE ≤ 16384) }
    requires room { length tape.now ≤ 262144 → length tape.now ≤ 11 * FACTS }
    ensures { ◌≡◌ {A = Result} (record { answer = answer_of result; space = out.new }) (laid_out (outcome original width case text.now tape.now) out.old) }
{
    let mut facts = [0u8; FACTS];
    let mut space = [0u8; SPACE];
    layout_in(text, tape, width, case, &mut facts, &mut space, out)
}

// Most tapes are short, so that there are two sizes: 746 bytes of facts are enough for a tape of 8,206 bytes, and 23,832 for any tape that 5 lets
// pass. Where `out` has no byte, nothing is written: the call measures, and there is no space to fill. Nor is there for a long text, whose layout
// seldom fits, so that what is written there would be written in vain: one walk finds the length, and a second writes the layout where it fits `out`.
pub fn layout(
    text: &[u8],
    tape: &[u8],
    width: u64,
    case: u64,
    out: &mut [u8],
) -> Result<usize, Refused>
    ensures { ◌≡◌ {A = Result} (record { answer = answer_of result; space = out.new }) (laid_out (outcome original width case text.now tape.now) out.old) }
{
    if tape.len() <= 8206 {
        if out.is_empty() {
            return layout_sized::<746, 0>(text, tape, width, case, out);
        }
        return layout_sized::<746, 4096>(text, tape, width, case, out);
    }
    if out.is_empty() || 32768 < text.len() {
        return layout_sized::<23832, 0>(text, tape, width, case, out);
    }
    layout_sized::<23832, 16384>(text, tape, width, case, out)
}

// layout_in with a map; not one with it, since the promises differ (`Result`, `Mapped`). What is walked first goes into `space` and `notes`.
fn layout_map_in(
    text: &[u8],
    tape: &[u8],
    width: u64,
    case: u64,
    facts: &mut [u8],
    space: &mut [u8],
    notes: &mut [u64],
    out: &mut [u8],
    map: &mut [u64],
) -> Result<usize, Refused>
    requires { (length tape.now ≤ 262144 → length tape.now ≤ 11 * length facts.old) × (notes.old ≡ replicate (length notes.old) 0) }
    ensures { ◌≡◌ {A = Mapped} (record { answer = answer_of result; space = out.new; map = map.new }) (mapped width case text.now tape.now out.old map.old) }
{
    check_call(width, case, text, tape, facts)?;
    let accepted = Accepted {
        text,
        tape,
        config: config_of(width, case),
        facts,
    };
    accepted.layout_map(space, notes, out, map)
}

// With arrays of its own on the stack for these, as above.
fn layout_map_sized<const FACTS: usize, const SPACE: usize, const NOTES: usize>(
    text: &[u8],
    tape: &[u8],
    width: u64,
    case: u64,
    out: &mut [u8],
    map: &mut [u64],
) -> Result<usize, Refused>
    requires small { (FACTS ≤ 23832) × (SPACE ≤ 16384) × (NOTES ≤ 1492) }
    requires room { length tape.now ≤ 262144 → length tape.now ≤ 11 * FACTS }
    ensures { ◌≡◌ {A = Mapped} (record { answer = answer_of result; space = out.new; map = map.new }) (mapped width case text.now tape.now out.old map.old) }
{
    let mut facts = [0u8; FACTS];
    let mut space = [0u8; SPACE];
    let mut notes = [0u64; NOTES];
    layout_map_in(
        text, tape, width, case, &mut facts, &mut space, &mut notes, out, map,
    )
}

// The layout, and line and column of each token in `map`. 1,492 numbers are enough for the tokens of a tape of 8,206 bytes. No array on the stack is
// long enough for those of any tape, so a long tape is walked twice, and what the first walk wrote would be written in vain.
pub fn layout_map(
    text: &[u8],
    tape: &[u8],
    width: u64,
    case: u64,
    out: &mut [u8],
    map: &mut [u64],
) -> Result<usize, Refused>
    ensures { ◌≡◌ {A = Mapped} (record { answer = answer_of result; space = out.new; map = map.new }) (mapped width case text.now tape.now out.old map.old) }
{
    if tape.len() <= 8206 {
        return layout_map_sized::<746, 4096, 1492>(text, tape, width, case, out, map);
    }
    layout_map_sized::<23832, 0, 0>(text, tape, width, case, out, map)
}
