#![tactic(auto)]

// House XML: trees and their bytes, the longest viable beginning, messages with places.
