//! Laws of trees and of certificates. The functions do nothing; their contracts are the laws.

ghost use Rattle.racp_trees.specs.Laws.{CertificateProves, TreesRefute};

use racp_cutset::laws::covering_refutes;
use racp_delay::laws::children_cover;

/// If a certificate holds, no capacities that are enough stand before the plan's.
pub fn certificate_proves()
    ensures { CertificateProves }
{
    trees_refute();
}

/// Trees that hold refute their windows and the nodes that they close.
pub fn trees_refute()
    ensures { TreesRefute }
{
    children_cover();
    covering_refutes();
}
