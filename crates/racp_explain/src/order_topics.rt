//! What is said of the faults of orders.

use crate::topic::Topic;
use racp_prices::OrderFault;

/// The command that reads the file of an example.
const READ: &str = "racp plan examples/a.sm FILE";

/// What is said of a fault of an order.
pub(crate) fn order_topic(fault: OrderFault) -> &'static Topic {
    match fault {
        OrderFault::NotToml => &NOT_TOML,
        OrderFault::Missing => &MISSING,
        OrderFault::Unknown => &UNKNOWN,
        OrderFault::NotWhole => &NOT_WHOLE,
        OrderFault::Range => &RANGE,
        OrderFault::Count => &COUNT,
        OrderFault::Memory => &MEMORY,
        OrderFault::Version => &VERSION,
    }
}

const NOT_TOML: Topic = Topic {
    short: "the text is not TOML",
    meaning: "The order is not UTF-8, or not TOML: a line 'key = value' is written otherwise, a bracket is missing, a key
is there twice, or a number is beyond 64 bits.",
    command: READ,
    file: "deadline: 4\nprices = [10]\n",
    cure: "Write lines as 'deadline = 4' and 'prices = [10]'; --explain names the line.",
};

const MISSING: Topic = Topic {
    short: "the deadline or the prices are missing",
    meaning: "The order has no deadline, or no prices.",
    command: READ,
    file: "deadline = 4\nprice = [10]\n",
    cure: "Write both keys, in these letters: 'deadline = 4' and 'prices = [10]', with a price for each resource.",
};

const UNKNOWN: Topic = Topic {
    short: "there is an unknown key",
    meaning: "The order has a key that is none. Without 'version = 2' the keys are deadline and prices alone; with it
also owned, ceiling, release and due.",
    command: READ,
    file: "deadline = 4\nprices = [10]\nowned = [1]\n",
    cure: "Write the key as it is in this list, or leave it out; or add the line 'version = 2'.",
};

const NOT_WHOLE: Topic = Topic {
    short: "something is not a whole number, or not an array of them",
    meaning: "Something else stands where a whole number has to, or an array of whole numbers. The deadline and the
version are whole numbers; all else are arrays, also where there is one resource.",
    command: READ,
    file: "deadline = 4.0\nprices = [10]\n",
    cure: "Write 'deadline = 4' without a point and without quotes, and 'prices = [10]' with brackets.",
};

const RANGE: Topic = Topic {
    short: "a number is out of range",
    meaning: "A number is out of its range: prices are 0 to 1,000,000, all other numbers 0 to 10,000,000.",
    command: READ,
    file: "deadline = -1\nprices = [10]\n",
    cure: "Write a number in the range; where prices are greater, count them in a greater unit.",
};

const COUNT: Topic = Topic {
    short: "an array has the wrong number of elements",
    meaning: "An array has another number of elements than there are resources (prices, owned, ceiling) or jobs
(release, due) in the network.",
    command: READ,
    file: "deadline = 4\nprices = [10, 10]\n",
    cure: "Write one number for each resource, or for each job, in the order of the network.",
};

const MEMORY: Topic = Topic {
    short: "memory ran out",
    meaning: "There was not enough memory to read the order, or its values could take more than 448 MiB. The program prints the
line memory for it.",
    command: "",
    file: "",
    cure: "End other programs, or raise a limit that was set, as by ulimit. An order has seven keys at most.",
};

const VERSION: Topic = Topic {
    short: "the version is unknown",
    meaning: "The version of the order is another than 2.",
    command: READ,
    file: "version = 3\ndeadline = 4\nprices = [10]\n",
    cure: "Write 'version = 2', or leave the version out where deadline and prices are the only keys.",
};
