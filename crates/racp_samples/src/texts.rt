//! Texts of networks, orders and plans.

/// Six jobs with two resources: after 1 come 2 and 3, after each of them 4 and 5, then 6.
pub const CROSSED: &[u8] =
    b"************************************************************************
file with basedata            : B.BAS
initial value random generator: 1
************************************************************************
projects                      :  1
jobs (incl. supersource/sink ):  6
horizon                       :  4
RESOURCES
  - renewable                 :  2   R
  - nonrenewable              :  0   N
  - doubly constrained        :  0   D
************************************************************************
PROJECT INFORMATION:
pronr.  #jobs rel.date duedate tardcost  MPM-Time
    1      4      0        2        0        2
************************************************************************
PRECEDENCE RELATIONS:
jobnr.    #modes  #successors   successors
   1        1          2           2   3
   2        1          2           4   5
   3        1          2           4   5
   4        1          1           6
   5        1          1           6
   6        1          0
************************************************************************
REQUESTS/DURATIONS:
jobnr. mode duration  R 1  R 2
------------------------------------------------------------------------
  1      1     0       0    0
  2      1     1       1    0
  3      1     1       1    0
  4      1     1       0    1
  5      1     1       0    1
  6      1     0       0    0
************************************************************************
RESOURCEAVAILABILITIES:
  R 1  R 2
    2    2
************************************************************************
";

/// An order for the five jobs.
pub const ORDER: &str = "deadline = 4\nprices = [10]\n";

/// The plan of the five jobs for that order.
pub const PLAN: &str =
    "deadline 4\ncritical 3\ncost 30\ncapacity 1 3\nstart 1 0\nstart 2 0\nstart 3 0\nstart 4 2\nstart 5 4\nend\n";

/// The plan of the six jobs with two resources, the deadline 3 and the prices 1 and 1.
pub const TWO: &str =
    "deadline 3\ncritical 2\ncost 3\ncapacity 1 1\ncapacity 2 2\nstart 1 0\nstart 2 0\nstart 3 1\nstart 4 2\nstart 5 2\nstart 6 3\nend\n";
