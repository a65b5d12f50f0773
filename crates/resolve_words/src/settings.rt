// What the words ask for.
ghost use Rattle.std.specs.Prelude.{◌≤◌};

use cost_vector::CostSpec;

/// What the words of the command line ask for. Texts are as they were given, or as the command's own ones.
#[derive(Debug, Drop)]
pub struct Settings {
    /// The names of the files.
    pub status: Option<String>,
    pub packages: Option<String>,
    pub hints: Option<String>,
    /// The seed and the count of packages of a generated universe, in place of the two files.
    pub sample: Option<(u64, u32)>,
    /// The levels of a cost.
    pub cost: CostSpec,
    /// The native architecture.
    pub arch: String,
    /// After how many own steps an answer may be "not yet": 1 to 1,000,000.
    pub slice: u64,
    /// How many threads search beside the dialogue: 0 to 16.
    pub workers: u32,
    /// The words that say what is wanted, in order.
    pub actions: Vec<String>,
    pub ghost slice_from: { 1 ≤ slice },
    pub ghost slice_to: { slice ≤ 1000000 },
    pub ghost workers_to: { workers ≤ 16 },
}
