// The names of the properties, by their numbers.
use pieces::STDOUT_FILENO;

#[derive(Drop)]
pub struct Property {}

// Those whose rows are lists and expressions.
impl Property {
    pub const ANTECEDENT_TASKS: u64 = 7;

    pub const POSTCONDITION: u64 = 13;

    pub const SOURCES: u64 = 35;
}

// Their names in the order of section 10.
const NAMES: [u8; 713] =
    *b"class|name|caption|actual_caption|description|actual_description|state|antecedent_tasks|goal|precondition|wait_condition|trigger|trigger_active|postcondition|parameters|parent_plan|confirmatory|confirmed|cycle_count|nbr_cycles_value|nbr_cycles_expression|cycle_until|cycle_interval|cycle_interval_units|start_at|optional|terminal|lwth|context|in_progress_time|discarded_time|completed_time|terminate_condition|abort_condition|candidates|sources|support_mode|choice_mode|result|procedure|actual_procedure|type|value|range_values|range_expressions|default_value|mandatory_validation|warning_conditions|derivation_rule|unit|requested|recommendation|priority|arguments|support|expression|data_item|mandatory|activated";

pub fn name(p: u64) {
    pieces::write(STDOUT_FILENO, &NAMES, p as usize);
}
