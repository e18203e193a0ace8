// The help that a console prints.

// Each form of a line, and what it answers.
pub const HELP: &str = "\
measure                    the height of the start term
measure TERM               the height of a term
compare I                  the order of rule I
ceiling N                  the ceiling of heights of N codes
pool SIZE FIRST            a pool of SIZE steps, whose first grant has the number FIRST
reserve AMOUNT             a grant of AMOUNT steps
settle NUMBER              that grant, handed back to the pool
free                       the steps that are free
open full NUMBER           a job on the start term, opened in full with that grant
open full NUMBER TERM      a job on a term, opened in full with that grant
open short NUMBER          a job on the start term, opened short with that grant
open short NUMBER TERM     a job on a term, opened short with that grant
step NUMBER RULE PLACE     a step with that grant, by a rule at a place
sweep NUMBER N             up to N steps with that grant, at first redexes
look                       the first redex, the size, the steps made and the steps left
copy N                     the job's term as codes, in N places
term                       the job's term by name
help                       these lines";
