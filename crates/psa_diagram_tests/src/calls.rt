//! Tables of rows, each a public call on diagrams or families and what it answers.

/// All rows, each of these tables for a node table of its own.
pub const TABLES: [&str; 5] = [TRIPLES, CONNECTIVES, FAMILIES, CUT_SETS, PRIMES];

/// Rows, as `wrong_rows` reads them: each triple has one node, and at the limit no new one.
const TRIPLES: &str = "\
nodes => 0
entries => 0
refused => none
bdd 3(T,F) => #2
bdd 3(T,F) => #2
bdd 3(T,T) => T
zbdd 3(E,U) => U
zbdd 3(U,U) => #3
zbdd 3(U,E) => #4
nodes => 3
restart 1
bdd 3(T,F) => #2
bdd 4(T,F) => full
bdd 3(T,F) => #2
refused => bdd 4 #1 #0
nodes => 1
restart
refused => none
nodes => 0
";

/// Rows, as `wrong_rows` reads them.
const CONNECTIVES: &str = "\
and 0(T,F) 1(T,F) => 0(1(T,F),F)
or 0(T,F) 1(T,F) => 0(T,1(T,F))
nodes => 4
entries => 2
bdd 0(1(T,F),F) => #4
bdd 0(T,1(T,F)) => #5
nodes => 4
restart 2
and 0(T,F) 1(T,F) => full
refused => bdd 0 #3 #0
nodes => 2
";

/// Rows, as `wrong_rows` reads them: literal 2r is the event of rank r, literal 2r + 1 its opposite. Behind a
/// product stands how many events may occur in a set.
const FAMILIES: &str = "\
# {0} or {2}; of {0, 2} and {4} what does not include 0
union 0(U,E) 2(U,E) => 0(U,2(U,E))
without 0(2(U,E),4(U,E)) 0(U,E) => 4(U,E)
# {0, 3} without its negative literal; the least of {0} and {0, 2}
positive 0(3(U,E),E) => 0(U,E)
minimal 0(2(U,U),E) => 0(U,E)
# {0} with {2}, and with its opposite
product:32 0(U,E) 2(U,E) => 0(2(U,E),E)
product:32 2(U,E) 0(U,E) => 0(2(U,E),E)
product:1 0(U,E) 2(U,E) => E
product:1 2(U,E) 0(U,E) => E
product:32 0(U,E) 1(U,E) => E
product:32 1(U,E) 0(U,E) => E
product:1 1(U,E) 2(U,E) => 1(2(U,E),E)
product:1 2(U,E) 1(U,E) => 1(2(U,E),E)
# {0} and {2, 5} with {1} and {2}: 0 does not go with 1, and {0, 2} has two occurring events
product:2 0(U,2(5(U,E),E)) 1(U,2(U,E)) => 0(2(U,E),1(2(5(U,E),E),2(5(U,E),E)))
product:2 1(U,2(U,E)) 0(U,2(5(U,E),E)) => 0(2(U,E),1(2(5(U,E),E),2(5(U,E),E)))
product:1 0(U,2(5(U,E),E)) 1(U,2(U,E)) => 1(2(5(U,E),E),2(5(U,E),E))
product:1 1(U,2(U,E)) 0(U,2(5(U,E),E)) => 1(2(5(U,E),E),2(5(U,E),E))
product:0 0(U,2(5(U,E),E)) 1(U,2(U,E)) => E
product:0 1(U,2(U,E)) 0(U,2(5(U,E),E)) => E
product:1 0(U,2(5(U,E),E)) U => 0(U,2(5(U,E),E))
product:1 U 0(U,2(5(U,E),E)) => 0(U,2(5(U,E),E))
product:0 U U => U
product:0 U U => U
product:5 0(U,2(5(U,E),E)) E => E
product:5 E 0(U,2(5(U,E),E)) => E
";

/// Rows, as `wrong_rows` reads them: behind `cuts` stands how many events a minimal cut set may have.
const CUT_SETS: &str = "\
# both of two events, and one event or both of two others
cuts:20 1(2(T,F),F) => 2(4(U,E),E)
cuts:2 1(2(T,F),F) => 2(4(U,E),E)
cuts:1 1(2(T,F),F) => E
cuts:20 0(T,1(2(T,F),F)) => 0(U,2(4(U,E),E))
cuts:1 0(T,1(2(T,F),F)) => 0(U,E)
cuts:0 0(T,1(2(T,F),F)) => E
# two of three events
cuts:20 0(1(T,2(T,F)),1(2(T,F),F)) => 0(2(U,4(U,E)),2(4(U,E),E))
cuts:2 0(1(T,2(T,F)),1(2(T,F),F)) => 0(2(U,4(U,E)),2(4(U,E),E))
cuts:1 0(1(T,2(T,F)),1(2(T,F),F)) => E
# the first event without the second, not monotone
cuts:20 1(F,T) => U
cuts:0 1(F,T) => U
cuts:20 0(1(F,T),F) => 0(U,E)
cuts:1 0(1(F,T),F) => 0(U,E)
cuts:0 0(1(F,T),F) => E
# not monotone: with event 0 both 1 and 2, or 3; without it 1 alone, which the set of 0, 1 and 2 includes
cuts:20 0(1(2(T,3(T,F)),3(T,F)),1(T,F)) => 0(6(U,E),2(U,E))
cuts:2 0(1(2(T,3(T,F)),3(T,F)),1(T,F)) => 0(6(U,E),2(U,E))
cuts:1 0(1(2(T,3(T,F)),3(T,F)),1(T,F)) => 2(U,E)
# event 3, or 0 with 1 or 2, within limits that fall, and on a new table that rise
restart
cuts:20 0(1(T,2(T,3(T,F))),3(T,F)) => 0(2(U,4(U,E)),6(U,E))
cuts:6 0(1(T,2(T,3(T,F))),3(T,F)) => 0(2(U,4(U,E)),6(U,E))
cuts:2 0(1(T,2(T,3(T,F))),3(T,F)) => 0(2(U,4(U,E)),6(U,E))
cuts:1 0(1(T,2(T,3(T,F))),3(T,F)) => 6(U,E)
cuts:0 0(1(T,2(T,3(T,F))),3(T,F)) => E
restart
cuts:0 0(1(T,2(T,3(T,F))),3(T,F)) => E
cuts:1 0(1(T,2(T,3(T,F))),3(T,F)) => 6(U,E)
cuts:2 0(1(T,2(T,3(T,F))),3(T,F)) => 0(2(U,4(U,E)),6(U,E))
cuts:6 0(1(T,2(T,3(T,F))),3(T,F)) => 0(2(U,4(U,E)),6(U,E))
cuts:20 0(1(T,2(T,3(T,F))),3(T,F)) => 0(2(U,4(U,E)),6(U,E))
";

/// Rows, as `wrong_rows` reads them: behind `primes` stands how many literals a prime implicant may have.
const PRIMES: &str = "\
# exactly one of two events: each with the other's opposite
primes:20 0(1(F,T),1(T,F)) => 0(3(U,E),1(2(U,E),E))
primes:2 0(1(F,T),1(T,F)) => 0(3(U,E),1(2(U,E),E))
primes:1 0(1(F,T),1(T,F)) => E
# event 0 with event 1, or without event 0 event 2: also both 1 and 2, whatever event 0 does
primes:20 0(1(T,F),2(T,F)) => 0(2(U,E),1(4(U,E),2(4(U,E),E)))
primes:1 0(1(T,F),2(T,F)) => E
# both of two events, or a third: no opposites
primes:20 0(1(T,2(T,F)),2(T,F)) => 0(2(U,E),4(U,E))
primes:1 0(1(T,2(T,F)),2(T,F)) => 4(U,E)
# the constants, and an event alone: the true diagram has the product of no literals, the false one none
primes:20 T => U
primes:1 T => U
primes:20 F => E
primes:1 0(F,T) => 1(U,E)
";
