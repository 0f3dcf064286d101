mod of_form_index;
mod of_link_table;
mod of_numbering;
mod of_place_names;
mod of_wait_table;
