// The hourly weights of a day, as a constant table, and how far a mark is from 14:00, by which they go.
ghost use Rattle.std.specs.Prelude.{◌≡◌, ◌<◌, ◌≤◌};
ghost use Rattle.bounds.specs.Weights.{weights, one_way, apart};

// The mark of 14:00.
pub const WARMEST: usize = 28;

// "The hourly weights are a constant table of 48 billionths", at marks 0 to 47.
const WEIGHTS: [u64; 48] = [
    84584859, 65665934, 50352853, 38136822, 28529975, 38136822, 50352853, 65665934, 84584859,
    107617178, 135240582, 167868390, 205810384, 249231025, 298107834, 352193337, 410984409,
    473702875, 539290981, 606424526, 673545317, 738913068, 800675126, 856950604, 905923875,
    945941075, 975602549, 993844026, 1000000000, 993844026, 975602549, 945941075, 905923875,
    856950604, 800675126, 738913068, 673545317, 606424526, 539290981, 473702875, 410984409,
    352193337, 298107834, 249231025, 205810384, 167868390, 135240582, 107617178,
];

// The weights as a value, to be made once: the constant itself would be built anew wherever it is read. It is no static, unlike the tables
// of the exponentials, since the customer's paper asks for a constant.
#[tactic(auto, unfolding(crate::specs::Weights::weights))]
pub fn weights_table() -> [u64; 48]
    ensures { result ≡ weights }
{
    WEIGHTS
}

// How far a mark is from 14:00, by mark or back, in half-hours.
fn one_way(mark: usize) -> usize
    requires { mark < 48 }
    ensures { (result ≡ one_way mark) × (result ≤ 28) }
{
    mark.abs_diff(WARMEST)
}

// The same the shorter way round the day.
pub fn apart(mark: usize) -> usize
    requires { mark < 48 }
    ensures { (result ≡ apart mark) × (result ≤ 24) }
{
    let way = one_way(mark);
    way.min(48 - way)
}
