//! Words of a command line, and what they ask for.

/// Rows: words with `|` between them, and algorithm, mode, order limit, cutoff, mission time, the four flags, limit
/// of nodes and input.
pub const ACCEPTED: &str = "\
a => bdd cut 20 - 8760e0 .... - a
a|b => bdd cut 20 - 8760e0 .... - a b
a|a => bdd cut 20 - 8760e0 .... - a a
 => bdd cut 20 - 8760e0 .... - 
- => bdd cut 20 - 8760e0 .... - -
a|--bdd|b => bdd cut 20 - 8760e0 .... - a b
--bdd|a => bdd cut 20 - 8760e0 .... - a
--zbdd|a => zbdd cut 20 - 8760e0 .... - a
--prime-implicants|a => bdd prime 20 - 8760e0 .... - a
--bdd|--prime-implicants|a => bdd prime 20 - 8760e0 .... - a
--rare-event|a => bdd cut 20 - 8760e0 r... - a
--mcub|a => bdd cut 20 - 8760e0 .m.. - a
--ccf|a => bdd cut 20 - 8760e0 ..c. - a
--validate|a => bdd cut 20 - 8760e0 ...v - a
--zbdd|--mcub|--ccf|--validate|a => zbdd cut 20 - 8760e0 .mcv - a
-l|7|a => bdd cut 7 - 8760e0 .... - a
-l7|a => bdd cut 7 - 8760e0 .... - a
-l=7|a => bdd cut 7 - 8760e0 .... - a
--limit-order|7|a => bdd cut 7 - 8760e0 .... - a
--limit-order=7|a => bdd cut 7 - 8760e0 .... - a
a|-l|1 => bdd cut 1 - 8760e0 .... - a
-l|32|a => bdd cut 32 - 8760e0 .... - a
-l|0000000000032|a => bdd cut 32 - 8760e0 .... - a
--cut-off|0.5|a => bdd cut 20 5e-1 8760e0 .... - a
--cut-off=0.5|a => bdd cut 20 5e-1 8760e0 .... - a
--cut-off|0|a => bdd cut 20 0e0 8760e0 .... - a
--cut-off|1|a => bdd cut 20 1e0 8760e0 .... - a
--cut-off=-0|a => bdd cut 20 -0e0 8760e0 .... - a
--cut-off=1e-99|a => bdd cut 20 1e-99 8760e0 .... - a
--mission-time|10|a => bdd cut 20 - 10e0 .... - a
--mission-time=1e6|a => bdd cut 20 - 1e6 .... - a
--mission-time=0|a => bdd cut 20 - 0e0 .... - a
--mission-time=-0|a => bdd cut 20 - -0e0 .... - a
--node-limit|1|a => bdd cut 20 - 8760e0 .... 1 a
--node-limit=5|a => bdd cut 20 - 8760e0 .... 5 a
--node-limit|1000000000000|a => bdd cut 20 - 8760e0 .... 1000000000000 a
--sample|2 => bdd cut 20 - 8760e0 .... - sample 2
--sample=1000 => bdd cut 20 - 8760e0 .... - sample 1000
--sample|5|-- => bdd cut 20 - 8760e0 .... - sample 5
--|a => bdd cut 20 - 8760e0 .... - a
--|--bdd|-l|- => bdd cut 20 - 8760e0 .... - --bdd -l -
a|--|--|b => bdd cut 20 - 8760e0 .... - a -- b
--zbdd|--|--zbdd => zbdd cut 20 - 8760e0 .... - --zbdd
help => bdd cut 20 - 8760e0 .... - help
a=b => bdd cut 20 - 8760e0 .... - a=b
1|2|3|4|5|6|7|8|9|10|11|12|13|14|15|16 => bdd cut 20 - 8760e0 .... - 1 2 3 4 5 6 7 8 9 10 11 12 13 14 15 16
--rare-event|--prime-implicants|a => bdd prime 20 - 8760e0 r... - a
--mcub|--prime-implicants|a => bdd prime 20 - 8760e0 .m.. - a
";

/// Rows: words with `|` between them, each refused.
pub const REFUSED: &str = "\
--bdd => refused
-- => refused
--x|a => refused
--b|a => refused
--bd|a => refused
--bdds|a => refused
--help => refused
--help|a => refused
-h|a => refused
--version|a => refused
-V|a => refused
-x|a => refused
-xl|a => refused
---|a => refused
--=3|a => refused
--probability|a => refused
-o|a => refused
-é|a => refused
--bdd|--bdd|a => refused
--ccf|--ccf|a => refused
-l|7|-l|7|a => refused
-l|7|--limit-order=7|a => refused
--cut-off|0|--cut-off|0|a => refused
--bdd=x|a => refused
--bdd=|a => refused
--ccf=|a => refused
--validate=1|a => refused
a|-l => refused
a|--limit-order => refused
a|--cut-off => refused
a|--mission-time => refused
a|--node-limit => refused
--sample => refused
-l|--|5 => refused
-l|--bdd|a => refused
-l|-5|a => refused
-l|-|a => refused
-l=|a => refused
--limit-order=|a => refused
-l==5|a => refused
-l|0|a => refused
-l=0|a => refused
-l|33|a => refused
-l|+5|a => refused
-l|5.0|a => refused
-l|x|a => refused
-l||a => refused
-l|00000000000032|a => refused
--cut-off|1.5|a => refused
--cut-off|-1|a => refused
--cut-off=-1|a => refused
--cut-off=-0.5|a => refused
--cut-off|x|a => refused
--cut-off||a => refused
--cut-off=1e|a => refused
--mission-time=-1|a => refused
--mission-time|1e7|a => refused
--node-limit|0|a => refused
--node-limit|1000000000001|a => refused
--node-limit|10000000000000|a => refused
--sample|1 => refused
--sample|1001 => refused
--sample|5|a => refused
--sample|5|--|a => refused
--bdd|--zbdd|a => refused
--prime-implicants|--zbdd|a => refused
--rare-event|--mcub|a => refused
--sample=x => refused
--rare-event => refused
1|2|3|4|5|6|7|8|9|10|11|12|13|14|15|16|17 => refused
(no words) => refused
";
