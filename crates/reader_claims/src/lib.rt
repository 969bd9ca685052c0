// What may be concluded of every call of `read`: theorems only, in proofs/; specs/Claim.antt says them.
#![tactic(auto)]
