// The public calls, each in a loop, for measuring: values are decoded once, the call is made so many times, and of each answer something is
// taken into a sum. What one call costs is the difference between two runs. The measuring program has the same loops over the baseline.
// The event sets' calls and the station stand without a loop, for their stack alone.
#![tactic(auto)]

mod act_calls;
mod duty_calls;
mod fold;
mod images;
mod lists;
mod sets;
mod turns;
