ghost use Rattle.std.specs.Prelude.{◌≡◌, ◌≤◌, take, drop, map, option_map, IfSome};
ghost use Rattle.records.specs.Edits.{change_of};
ghost use Rattle.lines.specs.Lines.{Meaning};
ghost use Rattle.runs.specs.Outcomes.{turn_of};
ghost use Rattle.exports.specs.Scripts.{entry_in, edit_by, next_edit, edits_in, edits_of, turn_by};

use records::edit::Edit;
use records::record::Mode;
use runs::call::Call;

/// How many words of a script say one call.
pub(crate) const CALL_WORDS: usize = 8;

/// How many edits a projection has at most.
pub(crate) const EDITS: usize = 4;

/// One call of a script.
#[derive(Clone, Copy)]
pub(crate) struct Entry {
    code: u32,
    a: u32,
    b: u32,
    c: u32,
    d: u32,
    /// Where the line is altered before the call, and to which word.
    pub(crate) place: u32,
    pub(crate) word: u32,
}

impl Entry {
    pub(crate) fn from_words(words: &[u32; CALL_WORDS]) -> Entry
        ensures { result ≡ entry_in words.now }
    {
        let [code, a, b, c, d, place, word, _] = *words;
        Entry {
            code,
            a,
            b,
            c,
            d,
            place,
            word,
        }
    }

    fn edit(&self) -> Option<Edit>
        ensures { option_map change_of result ≡ edit_by self.now }
    {
        match self.code {
            9 => Some(Edit::Project {
                address: self.a,
                io: self.b,
                id: self.c,
                parameter: self.d,
            }),
            10 => Some(Edit::Unproject(self.a)),
            11 => Some(Edit::TakeOver),
            _ => None,
        }
    }

    /// The call; one that opens a projection makes these edits through it.
    pub(crate) fn call<'a>(&self, edits: &'a [Edit]) -> Call<'a>
        ensures { (line : Meaning) → turn_of line result ≡ turn_by self.now (map change_of edits.now) line }
    {
        let address = self.a;
        match self.code {
            0 => Call::Cycle,
            1 => Call::PlaceParameter {
                address,
                value: self.b,
            },
            2 => Call::PlaceReset { address },
            3 => Call::Collect,
            4 => Call::WriteOutputs {
                address,
                outputs: self.b,
            },
            5 => Call::ReadInputs { address },
            6 => Call::ReadLists,
            7 if self.a == 0 => Call::SetMode(Mode::Configuration),
            7 => Call::SetMode(Mode::Protected),
            8 => Call::SetOffline(self.a != 0),
            _ => match self.edit() {
                Some(edit) => Call::Edit(edit),
                None => Call::Project(edits),
            },
        }
    }

    /// Reads the edits that the call makes, where it opens a projection; how many they are, and what is behind them.
    pub(crate) fn read_edits<'a>(
        &self,
        behind: &'a [u32],
        edits: &mut [Edit; EDITS],
    ) -> (usize, &'a [u32])
        ensures few { result.0 ≤ 4 }
        ensures edits { map change_of (take result.0 edits.new) ≡ (edits_of self.now behind.now).edits }
        ensures rest { result.1.now ≡ (edits_of self.now behind.now).rest }
    {
        if self.code > 11 {
            read_edits(behind, edits)
        } else {
            (0, behind)
        }
    }
}

/// The edit with which a script goes on, and what is behind it.
fn next_edit(script: &[u32]) -> Option<(Edit, &[u32])>
    ensures edit { option_map (λ p. change_of p.0) result ≡ next_edit script.now }
    ensures rest { IfSome result (λ p. p.1.now ≡ drop 8 script.now) }
{
    let (words, behind) = script.split_first_chunk::<CALL_WORDS>()?;
    Some((Entry::from_words(words).edit()?, behind))
}

/// Reads the edits with which a script goes on; how many they are, and what is behind them.
fn read_edits<'a>(script: &'a [u32], edits: &mut [Edit; EDITS]) -> (usize, &'a [u32])
    ensures few { result.0 ≤ 4 }
    ensures edits { map change_of (take result.0 edits.new) ≡ (edits_in 4 script.now).edits }
    ensures rest { result.1.now ≡ (edits_in 4 script.now).rest }
{
    let mut rest = script;
    for count in 0..EDITS {
        let Some((edit, behind)) = next_edit(rest) else {
            return (count, rest);
        };
        edits[count] = edit;
        rest = behind;
    }
    (EDITS, rest)
}
